//! Space packets (CCSDS 133.0-B-2): their octets, their counts, and the counts that are missing.
//!
//! None of these calls takes memory: a packet's body is borrowed from the octets that it was read
//! from, or that it will be written from.
//!
//! A packet is written into octets of the caller's, and read from them; more octets may stand after
//! it:
//!
//! ```
//! let packet = Packet {
//!     apid: 100,
//!     packet_type: PacketType::Telemetry,
//!     has_secondary_header: false,
//!     sequence_flags: SequenceFlags::Unsegmented,
//!     count: 0,
//!     body: b"hello",
//! };
//! let mut octets = [0u8; 16];
//! if packet.is_writable() {
//!     let len = encode(&packet, &mut octets);   // 11
//!     let (read, rest) = decode(&octets[..len])?;
//! }
//! ```
//!
//! Tested by `tests/transcripts/packets.txt`.
#![tactic(auto)]

ghost use Rattle.std.specs.Prelude.{◌≡◌, ℕ, ◌<◌, ◌≤◌, ◌++◌, List, length, take, drop, IfOk};
ghost use Rattle.std.specs.Prelude.{IsOkAnd};
ghost use Rattle.std.specs.Result.{result_err};
ghost use Rattle.space_packet.specs.Packet.{Parts, SpellsPacket, IsWritable, fault, idle};
ghost use Rattle.space_packet.specs.Packet.{header_octets, packet_octets, packet_len, view};

mod count;
mod error;
pub mod header;
mod laws;
mod packet;

use cfd_bits::{put_bytes, put_uint};
pub use count::{Counter, SEQUENCE_COUNTS, Watch};
pub use error::PacketError;
use header::HEADER_LEN;
pub use laws::{a_packet_has_one_spelling, no_packet_begins_another, written_packet_is_read};
pub use packet::{IDLE_APID, Packet, PacketType, SequenceFlags, is_packet_len};

/// Returns the packet at the front, and the octets after it.
///
/// `Short` if there are fewer than 6 octets, or fewer than the length field says; `Version` if the
/// version number is not 0. If there are at least 6 octets, `Version` is reported first.
pub fn decode(bytes: &[u8]) -> Result<(Packet<'_>, &[u8]), PacketError>
    ensures found { IfOk result (λ x. SpellsPacket (view x.0)
        (take (packet_len (view x.0)) bytes.now)) }
    ensures rest { IfOk result (λ x. x.1.now ≡ drop (packet_len (view x.0)) bytes.now) }
    ensures only { (p : Parts) (front behind : List ℕ) → SpellsPacket p front → bytes.now ≡ front
        ++ behind → IsOkAnd result (λ x. (view x.0 ≡ p) × (x.1.now ≡ behind)) }

    // The same of a front, if it is given by its length.
    ensures front { (p : Parts) (n : ℕ) → SpellsPacket p (take n bytes.now) →
        IsOkAnd result (λ x. (view x.0 ≡ p) × (x.1.now ≡ drop n bytes.now)) }
    ensures refused { result_err result ≡ fault bytes.now }
{
    if bytes.len() < HEADER_LEN {
        return Err(PacketError::Short);
    }
    if header::version(bytes) != 0 {
        return Err(PacketError::Version);
    }
    let len = header::packet_len(bytes);
    if bytes.len() < len {
        return Err(PacketError::Short);
    }
    let (front, rest) = bytes.split_at(len);
    let packet = Packet {
        apid: header::apid(bytes),
        packet_type: header::packet_type(bytes),
        has_secondary_header: header::has_secondary_header(bytes),
        sequence_flags: header::sequence_flags(bytes),
        count: header::sequence_count(bytes),
        body: &front[HEADER_LEN..],
    };
    Ok((packet, rest))
}

/// Writes the packet into the first octets, and returns how many they are: 6 and the octets of its
/// body. [`Packet::is_writable`] must hold. The octets after them stay as they were.
pub fn encode(packet: &Packet<'_>, out: &mut [u8]) -> usize
    requires writable { IsWritable (view packet.now) }
    requires room { packet_len (view packet.now) ≤ length out.old }
    ensures len { result ≡ packet_len (view packet.now) }
    ensures written { take result out.new ≡ packet_octets (view packet.now) }
    ensures spelled { SpellsPacket (view packet.now) (take result out.new) }
    ensures behind { drop result out.new ≡ drop result out.old }
{
    let len = HEADER_LEN + packet.body.len();
    let front = &mut out[..len];
    let at = put_header(packet, packet.body.len(), front);
    put_bytes(front, at, packet.body)
}

/// Returns the primary header of the packet, which must be [writable](Packet::is_writable). The
/// packet is these octets with its body after them, so that a body needn't be copied to be written.
pub fn header_of(packet: &Packet<'_>) -> [u8; HEADER_LEN]
    requires writable { IsWritable (view packet.now) }
    ensures len { length result ≡ 6 }
    ensures written { result ++ packet.now.body.now ≡ packet_octets (view packet.now) }
    ensures spelled { SpellsPacket (view packet.now) (result ++ packet.now.body.now) }
{
    let mut header = [0; HEADER_LEN];
    put_header(packet, packet.body.len(), &mut header);
    header
}

/// Writes an idle packet of `len` octets into the first octets: sequence flags `11`, count 0, data
/// octets 0. The length must be 7 to 65,542, which [`is_packet_len`] tests. The octets after them
/// stay as they were.
pub fn encode_idle(len: usize, out: &mut [u8])
    requires least { 7 ≤ len }
    requires most { len ≤ 65542 }
    requires room { len ≤ length out.old }
    ensures written { take len out.new ≡ packet_octets (idle len) }
    ensures spelled { SpellsPacket (idle len) (take len out.new) }
    ensures behind { drop len out.new ≡ drop len out.old }
{
    let packet = Packet {
        apid: IDLE_APID,
        packet_type: PacketType::Telemetry,
        has_secondary_header: false,
        sequence_flags: SequenceFlags::Unsegmented,
        count: 0,
        body: &[],
    };
    let front = &mut out[..len];
    let at = put_header(&packet, len - HEADER_LEN, front);
    front[at..].fill(0);
}

/// Writes the primary header of a packet with so many octets of data, and returns where it ends.
fn put_header(packet: &Packet<'_>, data_octets: usize, out: &mut [u8]) -> usize
    requires apid { packet.now.apid < 2048 }
    requires count { packet.now.count < 16384 }
    requires some { 1 ≤ data_octets }
    requires fits { data_octets ≤ 65536 }
    requires room { 6 ≤ length out.old }
    ensures end { result ≡ 6 }
    ensures written { take 6 out.new ≡ header_octets (view packet.now) data_octets }
{
    let identification = 4096 * u64::from(packet.packet_type.bit())
        + 2048 * u64::from(packet.has_secondary_header)
        + u64::from(packet.apid);
    let control = 16384 * u64::from(packet.sequence_flags.bits()) + u64::from(packet.count);
    let at = put_uint(out, 0, 2, identification);
    let at = put_uint(out, at, 2, control);
    put_uint(out, at, 2, data_octets as u64 - 1)
}
