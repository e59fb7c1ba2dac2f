//! What a station counts.
ghost use Rattle.std.specs.Prelude.{◌≡◌, ◌≢◌};
ghost use Rattle.cfdp_c.specs.Codes as codes;
ghost use Rattle.cfdp_c.specs.Counters as counts;
ghost use Rattle.cfdp_c.specs.Handles.{Answers};
ghost use Rattle.cfdp_c.specs.Held.{state_of};

use crate::codes::{CLOSED, OK};
use crate::handle::CfdpStation;
use crate::held::{AnyStation, Held};
use cfdp_station::{Counters, FrameDrops, PduDrops, SentPdus};
use std::alloc::Global;

/// How many PDUs were sent, each counted once. No count goes beyond the greatest of 64 bits.
#[repr(C)]
#[derive(Clone, Copy)]
pub struct CfdpSentPdus {
    /// File data that were not sent before.
    pub file_data: u64,
    /// File data that were sent before, and again since a NAK asked for them.
    pub file_data_again: u64,
    /// NAKs.
    pub naks: u64,
    /// All other directives, those that are sent again too.
    pub other_directives: u64,
}

/// How often something of a frame of either lane was dropped, by the cause. No count goes beyond
/// the greatest of 64 bits.
#[repr(C)]
#[derive(Clone, Copy)]
pub struct CfdpFrameDrops {
    /// It hasn't the octets of a frame.
    pub bad_length: u64,
    /// Its transfer frame version number isn't `01`.
    pub bad_version: u64,
    /// It is replayed, or a reserved bit of its header is set.
    pub other_profile: u64,
    /// It is of another spacecraft.
    pub other_spacecraft: u64,
    /// It is of another virtual channel.
    pub other_channel: u64,
    /// It holds only idle data.
    pub only_idle: u64,
    /// A begun packet was discarded.
    pub resync: u64,
    /// A packet's version number isn't 0.
    pub bad_packet: u64,
    /// A packet is of another application process.
    pub other_apid: u64,
    /// A packet is a segment, or has a secondary header.
    pub segmented: u64,
    /// There was no memory for what the zone holds.
    pub no_memory: u64,
    /// Its check says that it was damaged on the way.
    pub damaged: u64,
}

/// How often a PDU was dropped, by the cause.
#[repr(C)]
#[derive(Clone, Copy)]
pub struct CfdpPduDrops {
    /// It is shorter than a header.
    pub too_short: u64,
    /// The version of its header is another.
    pub bad_version: u64,
    /// Its CRC is wrong.
    pub bad_crc: u64,
    /// Its length isn't the length that its header says.
    pub bad_length: u64,
    /// It is of class 1.
    pub unacknowledged: u64,
    /// Its directive code is none.
    pub bad_directive: u64,
    /// Its data field is too short.
    pub truncated: u64,
    /// Its data field is too long.
    pub trailing: u64,
    /// A TLV of it isn't whole.
    pub bad_tlv: u64,
    /// Its condition code is none.
    pub bad_condition: u64,
    /// Its direction bit doesn't fit it.
    pub wrong_direction: u64,
    /// It is of other entities.
    pub not_for_us: u64,
    /// Its transaction has no record here.
    pub unknown: u64,
    /// There was no room for one more record, or stray acknowledgement.
    pub table_full: u64,
    /// There was no memory for what it brings.
    pub no_memory: u64,
    /// A file name of it is empty.
    pub no_file: u64,
}

/// What a station counts, from 0 when it is opened.
#[repr(C)]
#[derive(Clone, Copy)]
pub struct CfdpCounters {
    pub sent: CfdpSentPdus,
    pub frames: CfdpFrameDrops,
    pub pdus: CfdpPduDrops,
}

impl CfdpSentPdus {
    fn of(sent: SentPdus) -> Self
        ensures { result ≡ counts.sent_told sent }
    {
        CfdpSentPdus {
            file_data: sent.file_data,
            file_data_again: sent.file_data_again,
            naks: sent.naks,
            other_directives: sent.other_directives,
        }
    }
}

impl CfdpFrameDrops {
    fn of(drops: FrameDrops) -> Self
        ensures { result ≡ counts.frames_told drops }
    {
        CfdpFrameDrops {
            bad_length: drops.bad_length,
            bad_version: drops.bad_version,
            other_profile: drops.other_profile,
            other_spacecraft: drops.other_spacecraft,
            other_channel: drops.other_channel,
            only_idle: drops.only_idle,
            resync: drops.resync,
            bad_packet: drops.bad_packet,
            other_apid: drops.other_apid,
            segmented: drops.segmented,
            no_memory: drops.no_memory,
            damaged: drops.damaged,
        }
    }
}

impl CfdpPduDrops {
    fn of(drops: PduDrops) -> Self
        ensures { result ≡ counts.pdus_told drops }
    {
        CfdpPduDrops {
            too_short: drops.too_short,
            bad_version: drops.bad_version,
            bad_crc: drops.bad_crc,
            bad_length: drops.bad_length,
            unacknowledged: drops.unacknowledged,
            bad_directive: drops.bad_directive,
            truncated: drops.truncated,
            trailing: drops.trailing,
            bad_tlv: drops.bad_tlv,
            bad_condition: drops.bad_condition,
            wrong_direction: drops.wrong_direction,
            not_for_us: drops.not_for_us,
            unknown: drops.unknown,
            table_full: drops.table_full,
            no_memory: drops.no_memory,
            no_file: drops.no_file,
        }
    }
}

impl CfdpCounters {
    fn of(counters: Counters) -> Self
        ensures { result ≡ counts.counters_told counters }
    {
        CfdpCounters {
            sent: CfdpSentPdus::of(counters.sent),
            frames: CfdpFrameDrops::of(counters.frames),
            pdus: CfdpPduDrops::of(counters.pdus),
        }
    }
}

impl Held {
    #[tactic(auto, unfolding(crate::specs::Counters::counters_of))]
    fn counters(&self) -> CfdpCounters
        ensures { result ≡ counts.counters_of (state_of self.now.station) }
    {
        match &self.station {
            AnyStation::Memory(station) => CfdpCounters::of(station.counters()),
            AnyStation::Folders(station) => CfdpCounters::of(station.counters()),
        }
    }
}

/// Writes what the station counts. Returns 0 or `CLOSED`.
#[unsafe(no_mangle)]
pub extern "C" fn cfdp_counters(
    alloc: Global,
    station: &mut CfdpStation,
    counters: &mut CfdpCounters,
) -> u32
    ensures counts { Answers result station.old station.new (λ x y. (y ≡ x) × (result ≡ codes.ok)
        × (counters.new ≡ counts.counters_of (state_of x.station))) }
    ensures kept { result ≢ codes.ok → counters.new ≡ counters.old }
{
    let Some(held) = station.lift(alloc) else {
        return CLOSED;
    };
    *counters = held.counters();
    *station = CfdpStation::holding(held);
    OK
}
