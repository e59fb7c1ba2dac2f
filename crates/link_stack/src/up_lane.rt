//! One lane of the way up: the frames of one virtual channel to PDUs.
ghost use Rattle.std.specs.Prelude.{◌≡◌, ℕ, ◌+◌, ◌-◌, ◌^◌, ◌==◌, ◌<◌, ◌≤◌, ◌⊎◌, ◌++◌, List, Bool, []};
ghost use Rattle.std.specs.Prelude.{◌∷◌, true, false, length, take, drop, replicate, Some, None};
ghost use Rattle.std.specs.Prelude.{IfOk, OnErr};
ghost use Rattle.mpdu.specs.MpduHeader.{pointer_of};
ghost use Rattle.mpdu.specs.Stream.{ArePackets, survivors};
ghost use Rattle.link_stack.specs.Frames.{packet_drop, AreOfLink, pdus_in};
ghost use Rattle.cfd_bits.specs.Counting.{raised};
ghost use Rattle.link_stack.specs.Drops.{counted, all_counted, count_of};
ghost use Rattle.link_stack.specs.Upward.{AreLong, pdus_of, drops_of, zone_drops, packets_read};
ghost use Rattle.link_stack.specs.Upward.{mpdu_read, frame_read, HasZone, LaneTakes, Takes};
ghost use Rattle.link_stack.specs.Upward.{TakesFront, IsUpOf, control_after, first_lane_up};
ghost use Rattle.link_stack.specs.declared.drops.LinkDrop.TheVariants.{BadPacket, NoMemory};

use crate::drops::LinkDrop;
use aos_frame::{ChannelConfig, FrameError, VcMonitor, control_field, decode};
use mpdu::{MPDU_HEADER_LEN, Notes, ONLY_IDLE, Reassembler, read_pointer};
use octet_strings::OctetStrings;
use space_packet::{SequenceFlags, header};
use std::alloc::{AllocError, Global};
use std::marker::Model;
use valid_config::Valid;

/// The number of causes under which drops are counted.
const CAUSES: usize = 12;

/// How often something was dropped, for each cause.
#[derive(Debug, Drop)]
struct Drops {
    // in the order of their numbers, from 1
    counts: [u64; CAUSES],
}

impl Model for Drops {
    ghost use Rattle.std.specs.Prelude.{ℕ, List};

    ghost Value = { List ℕ };

    ghost view = { λ d. d.counts };
}

/// Returns one more, or the same if the count is the greatest.
fn one_more(count: u64) -> u64
    ensures { result ≡ raised count }
{
    count.saturating_add(1)
}

impl Drops {
    fn new() -> Self
        ensures { result ≡ replicate 12 0 }
    {
        Drops {
            counts: [0; CAUSES],
        }
    }

    fn of(&self, number: u8) -> u64
        ensures { result ≡ count_of self.now number }
    {
        match number {
            1..=12 => self.counts[usize::from(number) - 1],
            _ => 0,
        }
    }

    fn count(&mut self, drop: LinkDrop)
        ensures { self.new ≡ counted self.old drop }
    {
        let place = usize::from(drop.number()) - 1;
        self.counts[place] = one_more(self.counts[place]);
    }
}

/// Counts what was out of order in a zone, or that there was no memory for it.
fn note(fed: &Result<Notes, AllocError>, drops: &mut Drops)
    ensures read { IfOk fed.now (λ n. drops.new
        ≡ all_counted drops.old (zone_drops n.resync n.bad)) }
    ensures no_memory { OnErr fed.now (drops.new ≡ counted drops.old NoMemory) }
{
    let Ok(notes) = fed else {
        drops.count(LinkDrop::NoMemory);
        return;
    };
    if notes.resync {
        drops.count(LinkDrop::Resync);
    }
    count_bad(notes.bad, drops);
}

/// Counts so many bad packets.
fn count_bad(bad: u8, drops: &mut Drops)
    ensures { drops.new ≡ all_counted drops.old (replicate bad BadPacket) }
{
    for _ in 0..bad {
        drops.count(LinkDrop::BadPacket);
    }
}

/// Returns why a whole packet that isn't idle carries no PDU of the link, if it doesn't.
#[tactic(auto, unfolding(crate::specs::Frames::packet_drop))]
fn packet_drop_of(link: &ChannelConfig, packet: &[u8]) -> Option<LinkDrop>
    requires { 6 ≤ length packet.now }
    ensures { result ≡ packet_drop link.now packet.now }
{
    if header::apid(packet) != link.apid {
        return Some(LinkDrop::OtherApid);
    }
    let flags = header::sequence_flags(packet);
    if flags != SequenceFlags::Unsegmented || header::has_secondary_header(packet) {
        return Some(LinkDrop::Segmented);
    }
    None
}

/// Replaces the packet at an index by its PDU, or takes it out and counts why it carries none.
/// Returns the index of the next.
fn unpack_one(
    link: &ChannelConfig,
    packets: &mut OctetStrings,
    place: usize,
    drops: &mut Drops,
) -> usize
    requires there { place < length packets.old }
    requires fits { place + 1 < 2 ^ 64 }
    requires long { AreLong (drop place packets.old) }
    ensures nearer { length packets.new + place < length packets.old + result }
    ensures within { result ≤ length packets.new }
    ensures one { (q : List ℕ) (left : List (List ℕ)) → drop place packets.old ≡ q ∷ left →
        (drop result packets.new ≡ left)
        × (take result packets.new ≡ take place packets.old ++ pdus_of link.now (q ∷ []))
        × (drops.new ≡ all_counted drops.old (drops_of link.now (q ∷ []))) }
{
    if let Some(drop) = packet_drop_of(link, packets.get(place)) {
        drops.count(drop);
        packets.remove(place);
        return place;
    }
    packets.drop_front(place, header::HEADER_LEN);
    place + 1
}

/// Replaces the packets from an index on by their PDUs, and takes out and counts the packets that
/// carry none.
fn unpack(link: &ChannelConfig, packets: &mut OctetStrings, first: usize, drops: &mut Drops)
    requires there { first ≤ length packets.old }
    requires long { AreLong (drop first packets.old) }
    ensures pdus { packets.new
        ≡ take first packets.old ++ pdus_of link.now (drop first packets.old) }
    ensures drops { drops.new
        ≡ all_counted drops.old (drops_of link.now (drop first packets.old)) }
{
    let mut place = first;
    while place < packets.len() {
        place = unpack_one(link, packets, place, drops);
    }
}

/// A lane of the receiving end: what it takes of the frames of its virtual channel are the PDUs all
/// of whose frames came, in order.
#[derive(Debug, Drop)]
pub(crate) struct UpLane {
    link: ChannelConfig,
    monitor: VcMonitor,
    reassembler: Reassembler,
    drops: Drops,
    // the operational control field that came last
    control: Option<u32>,
}

impl Model for UpLane {
    ghost use Rattle.aos_frame.specs.Frame.{IsChannel};
    ghost use Rattle.link_stack.specs.Upward.{LinkReceiverState};

    ghost Value = { LinkReceiverState };

    ghost view = { λ u. record {
      link = u.link;
      last = u.monitor;
      begun = u.reassembler;
      drops =
          u.drops;
      control = u.control;
    } };

    ghost invariant = { λ u. IsChannel u.link };
}

impl UpLane {
    /// Returns a lane that has taken no frame.
    pub(crate) fn new(alloc: Global, link: Valid<ChannelConfig>) -> Result<Self, AllocError>
        ensures new { IfOk result (λ u. u ≡ first_lane_up link) }
        // It is as no frame of a stream of the lane leaves it.
        ensures stream { (all : Bool) (ps : List (List ℕ)) → ArePackets ps → AreOfLink link ps →
            IfOk result (λ u. IsUpOf all u ps [] 0) }
    {
        Ok(UpLane {
            link: link.get(),
            monitor: VcMonitor::new(),
            reassembler: Reassembler::new(alloc)?,
            drops: Drops::new(),
            control: None,
        })
    }

    /// Returns how often something was dropped under a number.
    pub(crate) fn drops(&self, number: u8) -> u64
        ensures { result ≡ count_of self.now.drops number }
    {
        self.drops.of(number)
    }

    /// Returns the operational control field that came last; `None` if none came.
    pub(crate) fn control(&self) -> Option<u32>
        ensures { result ≡ self.now.control }
    {
        self.control
    }

    /// Returns the virtual channel of the lane.
    pub(crate) fn virtual_channel(&self) -> u8
        ensures { result ≡ self.now.link.virtual_channel }
    {
        self.link.virtual_channel
    }

    /// Reads a zone. Its first header pointer must not be the one of idle data. Returns `false` if
    /// there was no memory for it.
    fn read_zone(
        &mut self,
        pointer: u16,
        zone: &[u8],
        follows: bool,
        out: &mut OctetStrings,
    ) -> bool
        requires least { 16 ≤ length zone.now }
        requires most { length zone.now ≤ 2040 }
        ensures all { result ≡ true →
            Takes (packets_read self.old.last self.old.begun follows pointer zone.now) self.old
            self.new out.old out.new }
        ensures front { result ≡ false →
            TakesFront (packets_read self.old.last self.old.begun follows pointer zone.now) self.old
            self.new out.old out.new }
        ensures control { self.new.control ≡ self.old.control }
    {
        let first = out.len();
        let fed = self.reassembler.feed(pointer, zone, follows, out);
        note(&fed, &mut self.drops);
        unpack(&self.link, out, first, &mut self.drops);
        fed.is_ok()
    }

    /// Reads the M_PDU of a frame of the link with this count, and this usage flag of the count
    /// cycle. Returns `false` if there was no memory for its zone.
    fn read_mpdu(&mut self, count: u32, cycle: bool, mpdu: &[u8], out: &mut OctetStrings) -> bool
        requires len { length mpdu.now ≡ 2 + self.old.link.zone }
        ensures all { result ≡ true →
            Takes (mpdu_read self.old (record { count = count; cycle = cycle }) mpdu.now) self.old
            self.new out.old out.new }
        ensures front { result ≡ false → ((pointer_of mpdu.now == 2046) ≡ false)
            × TakesFront (mpdu_read self.old (record { count = count; cycle = cycle }) mpdu.now)
            self.old self.new out.old out.new }
        ensures control { self.new.control ≡ self.old.control }
    {
        let in_order = self.monitor.follows(count, cycle);
        let pointer = read_pointer(mpdu);
        if pointer == ONLY_IDLE {
            self.reassembler.let_go();
            self.drops.count(LinkDrop::Frame(FrameError::OnlyIdle));
            return true;
        }
        self.read_zone(pointer, &mpdu[MPDU_HEADER_LEN..], in_order, out)
    }

    /// Reads a frame. Returns `false` if there was no memory for its zone.
    fn read_frame(&mut self, frame: &[u8], out: &mut OctetStrings) -> bool
        ensures all { result ≡ true →
            Takes (frame_read self.old frame.now) self.old self.new out.old out.new }
        ensures front { result ≡ false → HasZone self.old.link frame.now
            × TakesFront (frame_read self.old frame.now) self.old self.new out.old out.new }
        ensures control { self.new.control ≡ control_after self.old frame.now }
    {
        match decode(frame, &self.link) {
            Ok((header, mpdu)) => {
                self.control = control_field(self.link.fields, frame);
                self.read_mpdu(header.count, header.cycle, mpdu, out)
            }
            Err(error) => {
                self.drops.count(LinkDrop::Frame(error));
                true
            }
        }
    }

    /// Takes a frame, whatever its octets are, appends the PDUs that it completes, and counts what
    /// is dropped of it.
    pub(crate) fn take(&mut self, frame: &[u8], out: &mut OctetStrings)
        ensures { LaneTakes frame.now self.old self.new out.old out.new }
    {
        // For the prover: the invariant.
        let _ = &self.link;
        let _whole = self.read_frame(frame, out);
    }
}
