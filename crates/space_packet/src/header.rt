//! What the primary header before some octets says (CCSDS 133.0-B-2, 4.1.3), also if its packet
//! isn't all there.
//!
//! There must be at least 6 octets: the header's. What stands after them, and how much of it,
//! doesn't matter here.
ghost use Rattle.std.specs.Prelude.{◌≡◌, ◌==◌, ◌+◌, ◌<◌, ◌≤◌, length};
ghost use Rattle.space_packet.specs.Packet.{version_field, type_field, type_bit, secondary_field};
ghost use Rattle.space_packet.specs.Packet.{apid_field, flags_field, flag_bits, count_field};
ghost use Rattle.space_packet.specs.Packet.{length_field};

use crate::packet::{PacketType, SequenceFlags};
use cfd_bits::get;

/// Octets of a packet's primary header.
pub const HEADER_LEN: usize = 6;

/// Returns the packet version number, 0 to 7. Packets of this stack have 0.
pub fn version(octets: &[u8]) -> u8
    requires { 6 ≤ length octets.now }
    ensures value { result ≡ version_field octets.now }
    ensures below { result < 8 }
{
    get(octets, 0, 3) as u8
}

/// Returns the packet type, telemetry or telecommand.
pub fn packet_type(octets: &[u8]) -> PacketType
    requires { 6 ≤ length octets.now }
    ensures { type_bit result ≡ type_field octets.now }
{
    match get(octets, 3, 1) {
        0 => PacketType::Telemetry,
        _ => PacketType::Telecommand,
    }
}

/// Returns `true` if the packet's data begin with a secondary header.
pub fn has_secondary_header(octets: &[u8]) -> bool
    requires { 6 ≤ length octets.now }
    ensures { result ≡ (secondary_field octets.now == 1) }
{
    get(octets, 4, 1) == 1
}

/// Returns the application process identifier, 0 to 2,047.
pub fn apid(octets: &[u8]) -> u16
    requires { 6 ≤ length octets.now }
    ensures value { result ≡ apid_field octets.now }
    ensures below { result < 2048 }
{
    get(octets, 5, 11) as u16
}

/// Returns the sequence flags: which part of the user's data the packet has.
pub fn sequence_flags(octets: &[u8]) -> SequenceFlags
    requires { 6 ≤ length octets.now }
    ensures { flag_bits result ≡ flags_field octets.now }
{
    match get(octets, 16, 2) {
        0 => SequenceFlags::Continuation,
        1 => SequenceFlags::First,
        2 => SequenceFlags::Last,
        _ => SequenceFlags::Unsegmented,
    }
}

/// Returns the sequence count, 0 to 16,383.
pub fn sequence_count(octets: &[u8]) -> u16
    requires { 6 ≤ length octets.now }
    ensures value { result ≡ count_field octets.now }
    ensures below { result < 16384 }
{
    get(octets, 18, 14) as u16
}

/// Returns the number of octets that the packet has in all, its header among them, 7 to 65,542: the
/// length field holds 7 less.
pub fn packet_len(octets: &[u8]) -> usize
    requires { 6 ≤ length octets.now }
    ensures value { result ≡ 7 + length_field octets.now }
    ensures least { 7 ≤ result }
    ensures most { result ≤ 65542 }
{
    get(octets, 32, 16) as usize + 7
}
