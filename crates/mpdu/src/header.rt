//! What a reassembler reads of the primary header before some octets (CCSDS 133.0-B-2, 4.1.3), also
//! if its packet isn't all there.
ghost use Rattle.std.specs.Prelude.{◌≡◌, ◌≤◌, ◌↔◌, IsTrue, length};
ghost use Rattle.mpdu.specs.Stream.{IsPacket, ArePackets, header_len, header_ok, is_idle};
ghost use Rattle.mpdu.specs.Feeding.{octets_of_each};

use space_packet::{IDLE_APID, decode};

/// Returns `true` if the octets are one whole space packet and nothing else.
///
/// An idle packet is a packet, too (CCSDS 133.0-B-2, 4.1).
pub fn is_packet(bytes: &[u8]) -> bool
    ensures { IsTrue result ↔ IsPacket bytes.now }
{
    match decode(bytes) {
        Ok((_, rest)) => rest.is_empty(),
        Err(_) => false,
    }
}

/// Returns `true` if each item is one whole space packet and nothing else.
pub fn are_packets(packets: &[Vec<u8>]) -> bool
    ensures { IsTrue result ↔ ArePackets (octets_of_each packets.now) }
{
    for packet in packets {
        if !is_packet(packet) {
            return false;
        }
    }
    true
}

/// Returns the number of octets of the packet that begins here, 7 to 65,542.
pub(crate) fn packet_len(bytes: &[u8]) -> usize
    requires { 6 ≤ length bytes.now }
    ensures told { result ≡ header_len bytes.now }
    ensures long { 7 ≤ result }
    ensures short { result ≤ 65542 }
{
    space_packet::header::packet_len(bytes)
}

pub(crate) fn has_good_version(bytes: &[u8]) -> bool
    requires { 6 ≤ length bytes.now }
    ensures { result ≡ header_ok bytes.now }
{
    space_packet::header::version(bytes) == 0
}

pub(crate) fn has_idle_apid(bytes: &[u8]) -> bool
    requires { 6 ≤ length bytes.now }
    ensures { result ≡ is_idle bytes.now }
{
    space_packet::header::apid(bytes) == IDLE_APID
}
