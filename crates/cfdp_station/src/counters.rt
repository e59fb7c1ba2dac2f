// What a station counts.
ghost use Rattle.std.specs.Prelude.{◌≡◌};
ghost use Rattle.cfdp_station.specs.Counters as counts;

use crate::station::Station;
use aos_frame::FrameError;
use cfdp_directives::PduError;
use cfdp_entity::{EntityDrop, SentPdus};
use cfdp_header::HeaderError;
use cfdp_store::{Inbox, Outbox};
use link_stack::LinkDrop;

/// How often something of a frame of either lane was dropped, by the cause: see [`LinkDrop`]. Each
/// count stays at the greatest `u64`.
#[derive(Clone, Copy, Debug, PartialEq, Eq)]
pub struct FrameDrops {
    /// It hasn't the octets of a frame.
    pub bad_length: u64,
    /// Its transfer frame version number isn't `01`.
    pub bad_version: u64,
    /// It is replayed, or a reserved bit of its header is set.
    pub other_profile: u64,
    /// It is of another spacecraft.
    pub other_spacecraft: u64,
    /// It is of another virtual channel.
    pub other_channel: u64,
    /// It holds only idle data.
    pub only_idle: u64,
    /// A begun packet was discarded.
    pub resync: u64,
    /// A packet's version number isn't 0.
    pub bad_packet: u64,
    /// A packet is of another application process.
    pub other_apid: u64,
    /// A packet is a segment, or has a secondary header.
    pub segmented: u64,
    /// There was no memory for what the zone holds.
    pub no_memory: u64,
    /// Its check says that it was damaged on the way.
    pub damaged: u64,
}

/// How often a PDU that came up was dropped, by the cause: see [`EntityDrop`]. Each count stays at
/// the greatest `u64`.
#[derive(Clone, Copy, Debug, PartialEq, Eq)]
pub struct PduDrops {
    /// It is shorter than a header.
    pub too_short: u64,
    /// The version of its header is another.
    pub bad_version: u64,
    /// Its CRC is wrong.
    pub bad_crc: u64,
    /// Its length isn't that of its header.
    pub bad_length: u64,
    /// It is of class 1.
    pub unacknowledged: u64,
    /// Its directive code is none.
    pub bad_directive: u64,
    /// Its data field is too short.
    pub truncated: u64,
    /// Its data field is too long.
    pub trailing: u64,
    /// A TLV of it isn't whole.
    pub bad_tlv: u64,
    /// Its condition code is none.
    pub bad_condition: u64,
    /// Its direction bit doesn't fit it.
    pub wrong_direction: u64,
    /// It is of other entities.
    pub not_for_us: u64,
    /// Its transaction has no record here.
    pub unknown: u64,
    /// There was no room for one more record, or stray acknowledgement.
    pub table_full: u64,
    /// There was no memory for what it brings.
    pub no_memory: u64,
    /// A file name of it is empty.
    pub no_file: u64,
}

/// What a station counts, from 0 when it is made.
#[derive(Clone, Copy, Debug, PartialEq, Eq)]
pub struct Counters {
    /// The PDUs that it sent: those that a poll moved down.
    pub sent: SentPdus,
    /// What was dropped of the frames that it took.
    pub frames: FrameDrops,
    /// The PDUs of these that were dropped.
    pub pdus: PduDrops,
}

impl<O: Outbox, I: Inbox> Station<O, I> {
    /// Returns all that it counts: what it sent, and what was dropped of what it took.
    pub fn counters(&self) -> Counters
        ensures { result ≡ counts.counters self.now }
    {
        Counters {
            sent: self.entity.sent(),
            frames: self.frame_drops(),
            pdus: self.pdu_drops(),
        }
    }

    fn frame_drops(&self) -> FrameDrops
        ensures { result ≡ counts.frame_drops self.now }
    {
        FrameDrops {
            bad_length: self.link_drops(LinkDrop::Frame(FrameError::Length)),
            bad_version: self.link_drops(LinkDrop::Frame(FrameError::Version)),
            other_profile: self.link_drops(LinkDrop::Frame(FrameError::OtherProfile)),
            other_spacecraft: self.link_drops(LinkDrop::Frame(FrameError::OtherSpacecraft)),
            other_channel: self.link_drops(LinkDrop::Frame(FrameError::OtherChannel)),
            only_idle: self.link_drops(LinkDrop::Frame(FrameError::OnlyIdle)),
            resync: self.link_drops(LinkDrop::Resync),
            bad_packet: self.link_drops(LinkDrop::BadPacket),
            other_apid: self.link_drops(LinkDrop::OtherApid),
            segmented: self.link_drops(LinkDrop::Segmented),
            no_memory: self.link_drops(LinkDrop::NoMemory),
            damaged: self.link_drops(LinkDrop::Frame(FrameError::Damaged)),
        }
    }

    fn pdu_drops(&self) -> PduDrops
        ensures { result ≡ counts.pdu_drops self.now }
    {
        PduDrops {
            too_short: self.bad_headers(HeaderError::Short),
            bad_version: self.bad_headers(HeaderError::Version),
            bad_crc: self.bad_headers(HeaderError::BadCrc),
            bad_length: self.bad_headers(HeaderError::Length),
            unacknowledged: self.bad_headers(HeaderError::Unacknowledged),
            bad_directive: self.drops(EntityDrop::Pdu(PduError::Directive)),
            truncated: self.drops(EntityDrop::Pdu(PduError::Truncated)),
            trailing: self.drops(EntityDrop::Pdu(PduError::Trailing)),
            bad_tlv: self.drops(EntityDrop::Pdu(PduError::Tlv)),
            bad_condition: self.drops(EntityDrop::Pdu(PduError::Condition)),
            wrong_direction: self.drops(EntityDrop::WrongDirection),
            not_for_us: self.drops(EntityDrop::NotForUs),
            unknown: self.drops(EntityDrop::Unknown),
            table_full: self.drops(EntityDrop::TableFull),
            no_memory: self.drops(EntityDrop::NoMemory),
            no_file: self.drops(EntityDrop::NoFile),
        }
    }

    // Returns how often a PDU was dropped for its header.
    fn bad_headers(&self, by: HeaderError) -> u64
        ensures { result ≡ counts.pdu_count (counts.by_header by) self.now }
    {
        self.drops(EntityDrop::Pdu(PduError::Header(by)))
    }
}
