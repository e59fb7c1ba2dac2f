//! A station on a wire, with all that its turns need.
ghost use Rattle.std.specs.Prelude.{◌≡◌, drop, is_ok, is_some, true, IfErr, IfOk, OnErr};
ghost use Rattle.std.specs.Prelude.{OnOk};
ghost use Rattle.std.specs.FinMap as map;
ghost use Rattle.cfdp_store.specs.Stores.{failures_after};
ghost use Rattle.cfdp_entity.specs.Entity.{entity_lent, phase_told};
ghost use Rattle.cfdp_entity.specs.Restoring.{ForgottenCause, ReceiverCause, RestoresReceiver};
ghost use Rattle.cfdp_entity.specs.Restoring.{RestoresSender, SenderCause, with_forgotten};
ghost use Rattle.cfdp_entity.specs.Restoring.{was_read, was_shown};
ghost use Rattle.cfdp_entity.specs.Table.{ShowsIf};
ghost use Rattle.cfdp_station.specs.Station.{KeepsLink};
ghost use Rattle.cfdp_station.specs.Requests.{StationAnswers};
ghost use Rattle.cfdp_station.specs.New.{IsNewAt};
ghost use Rattle.cfdp_port.specs.Asking.{CountsFrom, FailsToLook, ForgetsTold, LetsGo, LooksAt};
ghost use Rattle.cfdp_port.specs.Asking.{Puts};
ghost use Rattle.cfdp_port.specs.Calls.{Rested};
ghost use Rattle.cfdp_port.specs.Gains.{Gains};
ghost use Rattle.cfdp_port.specs.PeerTurn.{TakesInPart, TakesOne};
ghost use Rattle.cfdp_port.specs.Port.{AtStation, all_closed, table_of};
ghost use Rattle.cfdp_port.specs.Port as spec;
ghost use Rattle.cfdp_port.specs.Shown.{ShowsAsked};
ghost use Rattle.cfdp_port.specs.Turn.{HearsAll, Sends, SendsInPart};

use crate::lookout::Lookout;
use crate::passed::Passed;
use crate::peer_turn::take_turn;
use crate::turn;
use crate::wire::{PeerWire, Wire};
use cfdp_directives::{Indication, Phase};
use cfdp_entity::an_entity_goes_on;
use cfdp_header::TransactionId;
use cfdp_station::{
    CommittedReceiver, CommittedSender, Extents, Lane, PutError, Request, RequestError,
    RestoreError, Station, StationConfig,
};
use cfdp_store::{Inbox, Outbox, ResumingInbox, SeekingOutbox, StoreError};
use station_pair::Side;
use std::alloc::{AllocError, Global};
use std::marker::Model;
use valid_config::Valid;

/// The most octets of a datagram that are looked at: more than a frame has.
const MOST_COMING: usize = 4096;

/// Returns `true` if a transaction that has come so far is closed.
fn is_closed(phase: Phase) -> bool
    ensures { result ≡ spec.is_closed phase }
{
    match phase {
        Phase::Closed => true,
        Phase::Sending | Phase::Cancelling | Phase::Receiving | Phase::Finishing => false,
    }
}

/// A station on a wire, over its two stores. Who looks on is shown all that passes.
#[derive(Drop)]
pub struct Port<O: Outbox, I: Inbox, W: Wire> {
    station: Station<O, I>,
    wire: W,
    side: Side,
    // one frame that leaves, and what comes
    frame: Vec<u8>,
    datagram: Vec<u8>,
}

impl<O: Outbox, I: Inbox, W: Wire> Model for Port<O, I, W> {
    ghost use Rattle.std.specs.Prelude.{length};
    ghost use Rattle.cfdp_entity.specs.Coded.{state_codes};
    ghost use Rattle.cfdp_port.specs.Port.{FitsFrames, PortState};

    ghost Value = { PortState W };

    ghost coded = { Prim.hlevel (state_codes) };

    ghost view = { λ p. record { station = p.station; wire = p.wire } };

    ghost invariant = { λ p. FitsFrames (length p.frame.items) p.station };
}

impl<O: Outbox, I: Inbox, W: Wire> Port<O, I, W> {
    /// Returns a new station on this wire. To one who looks on it is the one on this side.
    ///
    /// # Errors
    ///
    /// `AllocError` only if the memory for the station, or for a frame, was refused.
    pub fn new(
        alloc: Global,
        side: Side,
        config: Valid<StationConfig>,
        stores: (O, I),
        wire: W,
    ) -> Result<Self, AllocError>
        ensures station { IfOk result (λ p. IsNewAt config (O.stands stores.0) (O.files stores.0)
            (I.published stores.1) p.station) }
        ensures wire { IfOk result (λ p. p.wire ≡ wire) }
    {
        let (outbox, inbox) = stores;
        let len = config.get().sends.lane(Lane::Directives).frame_len();
        let frame = vec![in alloc; 0u8; len]?;
        let datagram = vec![in alloc; 0u8; MOST_COMING]?;
        // Last, so that no error drops a station.
        let station = Station::new(alloc, config, outbox, inbox)?;
        Ok(Port {
            station,
            wire,
            side,
            frame,
            datagram,
        })
    }

    /// Counts the frames of both lanes from this number on, as
    /// [`Station::count_frames_from`] says.
    pub fn count_frames_from(&mut self, count: u32)
        ensures { AtStation (CountsFrom count) self.old self.new }
    {
        self.station.count_frames_from(count);
    }

    /// Restores the record of a file that was being sent, as [`Station::restore_sender`] says.
    ///
    /// # Errors
    ///
    /// If [`Station::restore_sender`] fails: no record is restored then.
    pub fn restore_sender(&mut self, kept: CommittedSender, sent: u64) -> Result<(), RestoreError>
        ensures restored { OnOk result (RestoresSender kept sent
            self.old.station.entity.state self.new.station.entity.state) }
        ensures refused { IfErr result (λ by. SenderCause by kept sent
            self.old.station.entity.state) }
        ensures err { OnErr result (self.new.station.entity.state
            ≡ entity_lent self.new.station.entity.state self.old.station.entity.state) }
        ensures shows { ShowsIf true self.old.station.entity.state.table
            self.new.station.entity.state.table }
        ensures outbox { self.new.station.entity.outbox_failures
            ≡ failures_after self.old.station.entity.outbox_failures (was_read result) }
        ensures inbox { self.new.station.entity.inbox_failures
            ≡ self.old.station.entity.inbox_failures }
        ensures link { KeepsLink self.old.station self.new.station }
        ensures wire { self.new.wire ≡ self.old.wire }
    {
        self.station.restore_sender(kept, sent)
    }

    /// Forgets the transactions of a source with these numbers, as [`Station::restore_forgotten`]
    /// says.
    ///
    /// # Errors
    ///
    /// If [`Station::restore_forgotten`] fails: nothing changed then.
    pub fn restore_forgotten(
        &mut self,
        source: u64,
        start: u64,
        end: u64,
    ) -> Result<(), RestoreError>
        ensures restored { OnOk result (self.new.station.entity
            ≡ record self.old.station.entity {
              state = with_forgotten source start end self.old.station.entity.state;
            }) }
        ensures refused { IfErr result (λ by. ForgottenCause by source end
            self.old.station.entity.state) }
        ensures err { OnErr result (self.new ≡ self.old) }
        ensures link { KeepsLink self.old.station self.new.station }
        ensures wire { self.new.wire ≡ self.old.wire }
    {
        self.station.restore_forgotten(source, start, end)
    }

    /// Borrows the station.
    pub fn station(&self) -> &Station<O, I>
        ensures { result.now ≡ self.now.station }
    {
        &self.station
    }

    /// Returns how often the outbox failed.
    pub fn outbox_failures(&self) -> u64
        ensures { result ≡ self.now.station.entity.outbox_failures }
    {
        self.station.outbox().failures()
    }

    /// Returns how often the inbox failed.
    pub fn inbox_failures(&self) -> u64
        ensures { result ≡ self.now.station.entity.inbox_failures }
    {
        self.station.inbox().failures()
    }

    /// Returns what the station indicated, except for what was discarded.
    pub fn indications(&self) -> &[Indication]
        ensures { result.now ≡ drop self.now.station.entity.state.table.gone
            self.now.station.entity.state.table.told }
    {
        self.station.indications()
    }

    /// Returns how far a transaction has come; `None` if it has no record here.
    pub fn phase(&self, id: TransactionId) -> Option<Phase>
        ensures { result ≡ phase_told id self.now.station.entity.state.table }
    {
        self.station.phase(id)
    }

    /// Returns `true` if all transactions of the station are closed: those that it sends, and those
    /// that it receives.
    pub fn are_all_closed(&self) -> bool
        ensures { result ≡ all_closed self.now.station }
    {
        self.station()
            .transactions()
            .all(|known| is_closed(known.1))
    }

    /// Asks the station to send a file, which is shown if it does.
    ///
    /// # Errors
    ///
    /// If [`Station::put`] refuses it.
    pub fn put<L: Lookout>(
        &mut self,
        source: &[u8],
        destination: &[u8],
        lookout: &mut L,
    ) -> Result<TransactionId, PutError>
        ensures puts { AtStation (Puts source.now destination.now result) self.old self.new }
        ensures shown { ShowsAsked L.shows (is_ok result) lookout.old lookout.new }
        ensures gains { Gains (table_of self.old.station) (table_of self.new.station) }
    {
        an_entity_goes_on();
        let answer = self.station.put(source, destination);
        match answer {
            Ok(_) => lookout.sees(self.side, Passed::Asked, &self.station),
            Err(_) => {}
        }
        answer
    }

    /// Does what is asked of a transaction, as [`Station::request`] says, which is shown if it
    /// does.
    ///
    /// # Errors
    ///
    /// If [`Station::request`] refuses it.
    pub fn request<L: Lookout>(
        &mut self,
        id: TransactionId,
        request: Request,
        lookout: &mut L,
    ) -> Result<(), RequestError>
        ensures answers { AtStation (StationAnswers request id result) self.old self.new }
        ensures shown { ShowsAsked L.shows (is_ok result) lookout.old lookout.new }
        ensures gains { Gains (table_of self.old.station) (table_of self.new.station) }
    {
        an_entity_goes_on();
        let answer = self.station.request(id, request);
        match answer {
            Ok(()) => lookout.sees(self.side, Passed::Asked, &self.station),
            Err(_) => {}
        }
        answer
    }

    /// Discards the records of all transactions that are over, as far as there is memory to note
    /// it.
    pub fn forget_closed(&mut self)
        ensures { AtStation LetsGo self.old self.new }
    {
        let _ = self.station.forget_closed();
    }

    /// Discards the first so many indications, as [`Station::forget_indications`] says.
    pub fn forget_indications(&mut self, count: usize)
        ensures { AtStation (ForgetsTold count) self.old self.new }
    {
        self.station.forget_indications(count);
    }

    /// Sends: the station is given the time, polled until nothing is due or nothing more has room,
    /// at most 16 times, and flushed, and all its whole frames leave. If the wire fails to
    /// send one, it is lost.
    ///
    /// # Errors
    ///
    /// `AllocError` if the station finds no memory for a call: the turn ends there.
    pub fn send<L: Lookout>(&mut self, now: u64, lookout: &mut L) -> Result<(), AllocError>
        ensures ok { OnOk result (Sends W.steps now self.old self.new) }
        ensures err { OnErr result (SendsInPart now self.old self.new) }
    {
        let frame = self.frame.as_mut_slice();
        turn::send(
            now,
            self.side,
            &mut self.station,
            &mut self.wire,
            frame,
            lookout,
        )
    }

    /// Gives the station what came over the wire, until nothing does; asks at most 4,096 times. If
    /// the wire fails, a frame is lost.
    pub fn receive<L: Lookout>(&mut self, lookout: &mut L)
        ensures { HearsAll W.steps self.old self.new }
    {
        let datagram = self.datagram.as_mut_slice();
        turn::receive(
            self.side,
            &mut self.station,
            &mut self.wire,
            datagram,
            lookout,
        );
    }
}

impl<O: Outbox, I: Inbox, W: PeerWire> Port<O, I, W> {
    /// Takes one turn: the station takes what came, is given the time, and sends as long as the
    /// wire is ready, at most 64 frames. It is polled for a frame if that can leave.
    ///
    /// # Errors
    ///
    /// `AllocError` if the station finds no memory for a call: the turn ends there.
    pub fn turn<L: Lookout>(&mut self, lookout: &mut L) -> Result<(), AllocError>
        ensures ok { OnOk result (TakesOne W.steps self.old self.new) }
        ensures err { OnErr result (TakesInPart W.steps self.old self.new) }
        ensures gains { Gains (table_of self.old.station) (table_of self.new.station) }
    {
        let (frame, datagram) = (self.frame.as_mut_slice(), self.datagram.as_mut_slice());
        take_turn(
            self.side,
            &mut self.station,
            &mut self.wire,
            frame,
            datagram,
            lookout,
        )
    }

    /// Returns `true` if the peer has been silent for long enough, by the wire, which is given
    /// whether a transaction is open.
    pub fn is_silent(&mut self, is_open: bool) -> bool
        ensures wire { W.steps self.old.wire (Rested is_open result) self.new.wire }
        ensures station { self.new.station ≡ self.old.station }
    {
        self.wire.is_silent(is_open)
    }
}

impl<O: Outbox, I: ResumingInbox, W: Wire> Port<O, I, W> {
    /// Restores the record of a file that was being received, with what was held of it, as
    /// [`Station::restore_receiver`] says.
    ///
    /// # Errors
    ///
    /// If [`Station::restore_receiver`] fails: no record is restored then.
    pub fn restore_receiver(
        &mut self,
        kept: CommittedReceiver,
        held: Extents,
    ) -> Result<(), RestoreError>
        ensures restored { OnOk result (RestoresReceiver kept held
            self.old.station.entity.state self.new.station.entity.state) }
        ensures refused { IfErr result (λ by. ReceiverCause by kept held
            self.old.station.entity.state) }
        ensures err { OnErr result (self.new.station.entity.state
            ≡ self.old.station.entity.state) }
        ensures inbox { self.new.station.entity.inbox_failures
            ≡ failures_after self.old.station.entity.inbox_failures (was_shown result) }
        ensures outbox { self.new.station.entity.outbox_failures
            ≡ self.old.station.entity.outbox_failures }
        ensures link { KeepsLink self.old.station self.new.station }
        ensures wire { self.new.wire ≡ self.old.wire }
    {
        self.station.restore_receiver(kept, held)
    }
}

impl<O: SeekingOutbox, I: Inbox, W: Wire> Port<O, I, W> {
    /// Looks for the file of a name, so that a put can send it as it is now. Returns `true` if
    /// there is one.
    ///
    /// # Errors
    ///
    /// If [`Station::look_for`] fails.
    pub fn look_for(&mut self, name: &[u8]) -> Result<bool, StoreError>
        ensures has { IfOk result (λ has. has
            ≡ is_some (map.get self.new.station.entity.state.table.sources name.now)) }
        ensures looks { OnOk result (AtStation (LooksAt name.now) self.old self.new) }
        ensures err { OnErr result (AtStation FailsToLook self.old self.new) }
        ensures gains { Gains (table_of self.old.station) (table_of self.new.station) }
    {
        self.station.look_for(name)
    }
}
