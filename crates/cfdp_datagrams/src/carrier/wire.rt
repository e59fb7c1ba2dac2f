//! A wire of datagrams, each with one PDU, that is a wire of AOS frames to a station.
//!
//! Both ends of the station's link that are in here, one for each direction, lose nothing and keep
//! the order of each lane, since nothing lies between them and the station. So the frames that the
//! station takes are those of an honest link, and the frames that it sends are all read. What the
//! network does it does to whole datagrams: it may lose, repeat and reorder them. A lost datagram
//! is a lost PDU, which is asked for again. A repeated one, or one that comes late, is a PDU that
//! the peer's entity sends once more or later than others, in a frame of its own. What is promised
//! of a station for whatever PDUs come, holds here as there; but that the PDUs of a lane come in
//! the order in which they were sent, which a link of frames keeps, no network of datagrams does.
ghost use Rattle.std.specs.Prelude.{◌≡◌, ℕ, ◌≤◌, List, [], ◌∷◌, length, take, None, Some, true};
ghost use Rattle.std.specs.Prelude.{IfOk, IfSome, OnErr, OnOk};
ghost use Rattle.cfdp_datagrams.specs.Carrier.{ConversionState, GivesFrame, IsFirst, Leaves};
ghost use Rattle.cfdp_datagrams.specs.Carrier.{Passes, TakesDatagram, TakesFrame, TakesOrDrops};
ghost use Rattle.cfdp_datagrams.specs.CarrierWire.{Carries, IsFirstOf, LeavesNext, MayLeave};
ghost use Rattle.cfdp_datagrams.specs.CarrierWire.{SendsOut, pdu_carrier, waiting_of};

use crate::carrier::Carrier;
use crate::carrier::datagram::{PduCarrier, lane_of, put_pdu};
use cfdp_exchange::{CarrierDrop, CarrierTally};
use cfdp_port::{PeerWire, Wire, WireFault};
use cfdp_station::{LinkDrop, StationConfig};
use link_stack::{Down, Up};
use octet_strings::OctetStrings;
use space_packet::Counter;
use std::alloc::{AllocError, Global};
use std::marker::Model;
use valid_config::Valid;

/// The octets of packets that may wait in a lane of what comes: enough for the PDU of any datagram.
const CAPACITY: usize = 65_536;

/// The most octets of a datagram that are looked at; one of UDP has 65,507 at most.
const MOST_COMING: usize = 65_536;

/// The most datagrams that leave in a turn, so that what comes is taken between.
const MOST_IN_TURN: u32 = 64;

/// The octets of the longest packet, and of its data field.
const MOST_PACKET: usize = 65_542;
/// See [`MOST_PACKET`].
const MOST_BODY: usize = 65_536;

/// Frames to datagrams with one PDU each, and back.
#[derive(Drop)]
struct Conversion {
    carrier: PduCarrier,
    // What leaves: the end that takes the station's frames, their PDUs that have still to leave,
    // the oldest first, the APID and the count of their packets, and room for one of these and for
    // its data field.
    up: Up,
    queue: OctetStrings,
    apid: u16,
    packets: Counter,
    packet: Vec<u8>,
    body: Vec<u8>,
    // What comes: the APID of its packets, and the end that fills frames for the station.
    peer_apid: u16,
    down: Down,
}

impl Model for Conversion {
    ghost use Rattle.std.specs.Prelude.{◌≡◌, ◌<◌, length};
    ghost use Rattle.cfdp_datagrams.specs.Carrier.{ConversionState};

    ghost Value = { ConversionState };

    ghost view = { λ c. record {
      carrier = c.carrier;
      up = c.up;
      queue = c.queue;
      apid = c.apid;
      count = c.packets;
      peer_apid = c.peer_apid;
      down = c.down;
    } };

    ghost invariant = { λ c. (length c.packet.items ≡ 65542) × (length c.body.items ≡ 65536) };
}

impl Conversion {
    fn new(
        alloc: Global,
        carrier: PduCarrier,
        config: Valid<StationConfig>,
    ) -> Result<Self, AllocError>
        ensures { IfOk result (λ c. IsFirst carrier config c) }
    {
        let config = config.get();
        Ok(Conversion {
            carrier,
            up: Up::new(alloc, Valid::known(config.sends))?,
            queue: OctetStrings::new(alloc),
            apid: config.sends.apid,
            packets: Counter::new(),
            packet: vec![in alloc; 0u8; MOST_PACKET]?,
            body: vec![in alloc; 0u8; MOST_BODY]?,
            peer_apid: config.receives.apid,
            down: Down::new(alloc, Valid::known(config.receives), CAPACITY)?,
        })
    }

    /// Takes a frame of the station: the PDUs that it completes must leave, after the others.
    ///
    /// # Errors
    ///
    /// `WireFault` if there was no memory for one of them: it is lost, and so are those after it
    /// in the frame, and the one that the frame began.
    fn take_frame(&mut self, frame: &[u8]) -> Result<(), WireFault>
        ensures { TakesFrame frame.now self.old self.new }
    {
        let failures = self.up.drops(LinkDrop::NoMemory.number());
        self.up.receive(frame, &mut self.queue);
        if self.up.drops(LinkDrop::NoMemory.number()) == failures {
            Ok(())
        } else {
            Err(WireFault)
        }
    }

    /// Sends the oldest PDU that must leave over a wire, if there is one.
    ///
    /// # Errors
    ///
    /// The error of the wire, or `WireFault` if the PDU fits no packet: it is lost.
    fn send_first<W: Wire>(&mut self, wire: &mut W) -> Result<(), WireFault>
        ensures none { self.old.queue ≡ [] → (self.new ≡ self.old) × (wire.new ≡ wire.old) }
        ensures first { (pdu : List ℕ) (rest : List (List ℕ)) → self.old.queue ≡ pdu ∷ rest →
            Leaves W.steps pdu rest result self.old wire.old self.new wire.new }
    {
        if self.queue.is_empty() {
            return Ok(());
        }
        let pdu = self.queue.get(0);
        let sent = match self.carrier {
            PduCarrier::Pdus => wire.send(pdu),
            PduCarrier::Packets(form) => {
                let count = self.packets.next();
                let (body, packet) = (&mut self.body, &mut self.packet);
                match put_pdu(form, self.apid, count, pdu, body, packet) {
                    Some(len) => wire.send(&self.packet[..len]),
                    None => Err(WireFault),
                }
            }
        };
        self.queue.remove(0);
        sent
    }

    /// Takes the PDU of a datagram that came: the frames that it fills wait for the station.
    ///
    /// # Errors
    ///
    /// The cause for which the datagram is dropped. Nothing changed then.
    fn take_datagram(&mut self, datagram: &[u8]) -> Result<(), CarrierDrop>
        ensures ok { OnOk result (TakesDatagram datagram.now self.old self.new) }
        ensures err { OnErr result (self.new ≡ self.old) }
    {
        let pdu = self.carrier.pdu_in(self.peer_apid, datagram)?;
        let lane = lane_of(pdu);
        match self.down.send(pdu, lane) {
            Ok(()) => {
                self.down.flush(lane);
                Ok(())
            }
            Err(_) => Err(CarrierDrop::NoRoom),
        }
    }

    /// Writes the next frame for the station to the front of a buffer, and answers how many octets
    /// it has; `None` if none waits, or the buffer is shorter: nothing changed then.
    fn next_frame(&mut self, buffer: &mut [u8]) -> Option<usize>
        ensures within { IfSome result (λ len. len ≤ length buffer.new) }
        ensures gives { IfSome result (λ len. GivesFrame (take len buffer.new) self.old self.new) }
        ensures none { result ≡ None → self.new ≡ self.old }
    {
        let len = self.down.frame_len();
        if buffer.len() < len {
            return None;
        }
        self.down.next_frame(&mut buffer[..len])?;
        Some(len)
    }

    /// Takes the PDU of a datagram that came, and writes the next frame for the station to the
    /// front of a buffer, as `next_frame` does; `None` if there is none, though the PDU may have
    /// been taken. A datagram that is dropped is counted in the tally.
    fn pass(&mut self, datagram: &[u8], tally: &CarrierTally, buffer: &mut [u8]) -> Option<usize>
        ensures within { IfSome result (λ len. len ≤ length buffer.new) }
        ensures passes { IfSome result (λ len. Passes datagram.now (take len buffer.new) self.old
            self.new) }
        ensures none { result ≡ None → TakesOrDrops datagram.now self.old self.new }
    {
        if let Err(cause) = self.take_datagram(datagram) {
            tally.count(cause);
        }
        self.next_frame(buffer)
    }
}

/// Returns the way from frames to datagrams and back, if these aren't the frames.
fn conversion_of(
    alloc: Global,
    carrier: Carrier,
    config: Valid<StationConfig>,
) -> Result<Option<Conversion>, AllocError>
    ensures { IfOk result (IsFirstOf (pdu_carrier carrier) config) }
{
    let carrier = match carrier {
        Carrier::Frames => return Ok(None),
        Carrier::Packets(form) => PduCarrier::Packets(form),
        Carrier::Pdus => PduCarrier::Pdus,
    };
    Ok(Some(Conversion::new(alloc, carrier, config)?))
}

/// A wire of frames for a station, over a wire of datagrams.
///
/// What leaves: a frame may complete several PDUs, or none. Each leaves in a datagram of its own,
/// in their order, as the wire of datagrams is ready for one; a frame may leave as soon as no
/// datagram waits. The packets of both lanes are counted together, from 0 on, modulo 16,384.
///
/// What comes: the PDU of each datagram goes on the lane of its type, and the begun frame of that
/// is filled up, so that it comes at once. A datagram that has none is dropped, and counted by its
/// cause.
#[derive(Drop)]
pub struct CarrierWire<'a, W: PeerWire> {
    wire: W,
    // `None` if the datagrams are the frames.
    conversion: Option<Conversion>,
    // What came last, and how often such was dropped.
    datagram: Vec<u8>,
    tally: &'a CarrierTally,
    // Whether the wire was ready in this turn, and nothing was sent since; and how many datagrams
    // left in it.
    has_leave: bool,
    left: u32,
}

impl<'a, W: PeerWire> Model for CarrierWire<'a, W> {
    ghost use Rattle.cfdp_datagrams.specs.CarrierWire.{CarrierState};

    ghost Value = { CarrierState W };

    ghost view = { λ c. record {
      wire = c.wire;
      conversion = c.conversion;
      has_leave = c.has_leave;
    } };
}

impl<'a, W: PeerWire> CarrierWire<'a, W> {
    /// Returns the wire of a station with this configuration, over a wire of datagrams. What comes
    /// and is dropped is counted in the tally.
    ///
    /// # Errors
    ///
    /// `AllocError` only if one of its buffers was refused.
    pub fn new(
        alloc: Global,
        carrier: Carrier,
        config: Valid<StationConfig>,
        wire: W,
        tally: &'a CarrierTally,
    ) -> Result<Self, AllocError>
        ensures wire { IfOk result (λ c. c.wire ≡ wire) }
        ensures first { IfOk result (λ c. IsFirstOf (pdu_carrier carrier) config c.conversion) }
    {
        Ok(CarrierWire {
            wire,
            conversion: conversion_of(alloc, carrier, config)?,
            datagram: vec![in alloc; 0u8; MOST_COMING]?,
            tally,
            has_leave: false,
            left: 0,
        })
    }

    /// Returns `true` if a datagram may leave now. If the wire was ready it isn't asked again
    /// before one has left, or the turn is over.
    fn may_leave(&mut self) -> bool
        ensures { MayLeave W.steps result self.old self.new }
    {
        if self.left >= MOST_IN_TURN {
            return false;
        }
        if !self.has_leave {
            self.has_leave = self.wire.is_ready();
        }
        self.has_leave
    }

    /// Returns how many datagrams wait.
    fn waiting(&self) -> usize
        ensures { result ≡ waiting_of self.now.conversion }
    {
        match &self.conversion {
            Some(conversion) => conversion.queue.len(),
            None => 0,
        }
    }

    /// Sends the oldest datagram that waits.
    ///
    /// # Errors
    ///
    /// `WireFault` if it is lost.
    fn send_first(&mut self) -> Result<(), WireFault>
        ensures { (c : ConversionState) (pdu : List ℕ) (rest : List (List ℕ)) →
            self.old.conversion ≡ Some c → c.queue ≡ pdu ∷ rest → self.old.has_leave ≡ true →
            LeavesNext W.steps self.old self.new }
    {
        self.has_leave = false;
        self.left = self.left.saturating_add(1);
        match &mut self.conversion {
            Some(conversion) => conversion.send_first(&mut self.wire),
            None => Ok(()),
        }
    }

    /// Sends the datagrams that wait as long as the wire is ready. Some may wait then.
    ///
    /// # Errors
    ///
    /// `WireFault` if one of them is lost.
    fn send_waiting(&mut self) -> Result<(), WireFault>
        ensures { SendsOut W.steps self.old self.new }
    {
        let mut sent = Ok(());
        for _datagram in 0..self.waiting() {
            if !self.may_leave() {
                break;
            }
            if let Err(fault) = self.send_first() {
                sent = Err(fault);
            }
        }
        sent
    }
}

impl<W: PeerWire> Wire for CarrierWire<'_, W> {
    ghost steps = { λ old call new. Carries W.steps old call new };

    fn send(&mut self, frame: &[u8]) -> Result<(), WireFault> {
        let taken = match &mut self.conversion {
            Some(conversion) => conversion.take_frame(frame),
            None => return self.wire.send(frame),
        };
        self.send_waiting()?;
        taken
    }

    fn receive(&mut self, buffer: &mut [u8]) -> Result<Option<usize>, WireFault> {
        let Some(conversion) = &mut self.conversion else {
            return self.wire.receive(buffer);
        };
        if let Some(len) = conversion.next_frame(buffer) {
            return Ok(Some(len));
        }
        let Some(len) = self.wire.receive(&mut self.datagram)? else {
            return Ok(None);
        };
        match conversion.pass(&self.datagram[..len], self.tally, buffer) {
            Some(len) => Ok(Some(len)),
            None => Err(WireFault),
        }
    }
}

impl<W: PeerWire> PeerWire for CarrierWire<'_, W> {
    fn now(&mut self) -> u64 {
        if self.conversion.is_none() {
            return self.wire.now();
        }
        // A turn begins to send: what the wire said in the one before no longer holds.
        self.has_leave = false;
        self.left = 0;
        let _ = self.send_waiting();
        self.wire.now()
    }

    fn is_ready(&mut self) -> bool {
        if self.conversion.is_none() {
            return self.wire.is_ready();
        }
        let _ = self.send_waiting();
        self.waiting() == 0 && self.may_leave()
    }

    fn is_silent(&mut self, is_open: bool) -> bool {
        self.wire.is_silent(is_open)
    }
}
