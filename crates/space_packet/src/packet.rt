//! A packet, over octets that are borrowed.
ghost use Rattle.std.specs.Prelude.{◌≡◌, ◌↔◌, IsTrue};
ghost use Rattle.space_packet.specs.Packet.{IsWritable, IsPacketLen, flag_bits, type_bit, view};

use crate::count::SEQUENCE_COUNTS;
use crate::header::HEADER_LEN;

/// The application process identifier of idle packets, whose data mean nothing (CCSDS 133.0-B-2,
/// 4.1.3.3.4).
pub const IDLE_APID: u16 = 2047;

/// Which way a packet goes (CCSDS 133.0-B-2, 4.1.3.3.2).
#[derive(Clone, Copy, Debug, PartialEq, Eq)]
pub enum PacketType {
    /// From the spacecraft: it reports.
    Telemetry,
    /// To the spacecraft: it commands.
    Telecommand,
}

impl PacketType {
    /// Returns the bit of the packet type field, 0 or 1.
    pub fn bit(self) -> u8
        ensures { result ≡ type_bit self }
    {
        match self {
            PacketType::Telemetry => 0,
            PacketType::Telecommand => 1,
        }
    }
}

/// Which part of its user's data a packet has (CCSDS 133.0-B-2, 4.1.3.4.2).
#[derive(Clone, Copy, Debug, PartialEq, Eq)]
pub enum SequenceFlags {
    /// A segment that is neither the first nor the last one.
    Continuation,
    /// The first segment.
    First,
    /// The last segment.
    Last,
    /// All of it.
    Unsegmented,
}

impl SequenceFlags {
    /// Returns the two bits of the sequence flags field, 0 to 3.
    pub fn bits(self) -> u8
        ensures { result ≡ flag_bits self }
    {
        match self {
            SequenceFlags::Continuation => 0,
            SequenceFlags::First => 1,
            SequenceFlags::Last => 2,
            SequenceFlags::Unsegmented => 3,
        }
    }
}

/// A space packet; its body lies in octets that are borrowed.
#[derive(Clone, Copy, Debug, PartialEq, Eq)]
pub struct Packet<'a> {
    /// The application process identifier, 0 to 2,047.
    pub apid: u16,
    /// The packet type, telemetry or telecommand.
    pub packet_type: PacketType,
    /// Whether the body begins with a secondary header.
    pub has_secondary_header: bool,
    /// The sequence flags: which part of the user's data this is.
    pub sequence_flags: SequenceFlags,
    /// The sequence count, 0 to 16,383.
    pub count: u16,
    /// The packet data field, 1 to 65,536 octets.
    pub body: &'a [u8],
}

impl Packet<'_> {
    /// Returns `true` if this is an idle packet.
    pub fn is_idle(&self) -> bool
        ensures { IsTrue result ↔ (self.now.apid ≡ IDLE_APID) }
    {
        self.apid == IDLE_APID
    }

    /// Returns `true` if each part fits its field, as `encode` requires. It holds of each packet
    /// that `decode` answers.
    pub fn is_writable(&self) -> bool
        ensures { IsTrue result ↔ IsWritable (view self.now) }
    {
        self.apid <= IDLE_APID
            && self.count < SEQUENCE_COUNTS
            && (1..=65_536).contains(&self.body.len())
    }
}

/// Returns `true` if a packet can have so many octets, its header among them: 7 to 65,542.
pub fn is_packet_len(len: usize) -> bool
    ensures { IsTrue result ↔ IsPacketLen len }
{
    (HEADER_LEN + 1..=65_542).contains(&len)
}
