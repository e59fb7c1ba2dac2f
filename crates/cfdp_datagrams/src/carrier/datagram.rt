//! The octets of a datagram that carries one PDU.
ghost use Rattle.std.specs.Prelude.{◌≡◌, ◌++◌, ℕ, ◌+◌, ◌≤◌, List, length, replicate, take, IfOk};
ghost use Rattle.std.specs.Prelude.{IfSome, IsOkAnd, IsSome};
ghost use Rattle.cfdp_datagrams.specs.Carrier.{Carries, carrying, pdu_lane, sent_packet};
ghost use Rattle.space_packet.specs.Packet.{IsWritable, SpellsPacket, packet_octets};
ghost use Rattle.space_packet.specs.declared.packet.PacketType.{PacketType};

use aos_frame::Lane;
use cfd_bits::{get, put_bytes};
use cfdp_exchange::CarrierDrop;
use space_packet::header::HEADER_LEN;
use space_packet::{Packet, PacketError, PacketType, SequenceFlags};

/// What packets are that have one PDU each, beside their APIDs. A secondary header (CCSDS
/// 133.0-B-2, 4.1.4.2) is a message's own, as that of cFS, and says nothing of the PDU.
#[derive(Clone, Copy, Debug, PartialEq, Eq)]
pub struct PacketForm {
    /// The type of those that leave; what comes may be of either.
    pub packet_type: PacketType,
    /// Octets of the secondary header of those that leave, all zero; with 0 there is none.
    pub secondary_header: u8,
    /// Octets of the secondary header of those that come, which are passed over; with 0 there is
    /// none.
    pub peer_secondary_header: u8,
}

/// How a datagram has one PDU.
#[derive(Clone, Copy, Debug, PartialEq, Eq)]
pub enum PduCarrier {
    /// In a Space Packet of its own (CCSDS 133.0-B-2), unsegmented.
    Packets(PacketForm),
    /// Alone.
    Pdus,
}

impl PduCarrier {
    /// Returns the PDU of a datagram; its packet, if it has one, is of this APID.
    ///
    /// # Errors
    ///
    /// The first cause for which the datagram is dropped, in this order: `Short`, `Version`,
    /// `Long`, `OtherApid`, `Segmented`, `SecondaryHeader`, `Empty`; of a bare PDU `Empty` alone.
    /// What the PDU itself says isn't looked at.
    pub fn pdu_in(self, apid: u16, datagram: &[u8]) -> Result<&[u8], CarrierDrop>
        // The datagram belongs to the PDU, and to no other.
        ensures found { IfOk result (λ pdu. Carries self apid pdu.now datagram.now) }
        ensures only { (pdu : List ℕ) → Carries self apid pdu datagram.now →
            IsOkAnd result (λ found. found.now ≡ pdu) }
        ensures some { IfOk result (λ pdu. 1 ≤ length pdu.now) }
    {
        match self {
            PduCarrier::Packets(form) => {
                pdu_of_packet(apid, form.peer_secondary_header, datagram)
            }
            PduCarrier::Pdus if datagram.is_empty() => Err(CarrierDrop::Empty),
            PduCarrier::Pdus => Ok(datagram),
        }
    }
}

/// Returns the PDU of the packet that a datagram is, after a secondary header of `header_len`
/// octets.
///
/// # Errors
///
/// The first cause for which it is none of this APID with a PDU.
fn pdu_of_packet(apid: u16, header_len: u8, datagram: &[u8]) -> Result<&[u8], CarrierDrop>
    ensures found { IfOk result (λ pdu. (packet_type : PacketType) × (count : ℕ)
        × (header : List ℕ) × (length header ≡ header_len)
        × SpellsPacket (carrying packet_type apid count header pdu.now) datagram.now) }
    ensures only { (packet_type : PacketType) (count : ℕ) (header pdu : List ℕ) →
        length header ≡ header_len → 1 ≤ length pdu →
        SpellsPacket (carrying packet_type apid count header pdu) datagram.now →
        IsOkAnd result (λ found. found.now ≡ pdu) }
    ensures some { IfOk result (λ pdu. 1 ≤ length pdu.now) }
{
    let (packet, behind) = match space_packet::decode(datagram) {
        Ok(found) => found,
        Err(PacketError::Short) => return Err(CarrierDrop::Short),
        Err(PacketError::Version) => return Err(CarrierDrop::Version),
    };
    if !behind.is_empty() {
        return Err(CarrierDrop::Long);
    }
    if packet.apid != apid {
        return Err(CarrierDrop::OtherApid);
    }
    if packet.sequence_flags != SequenceFlags::Unsegmented {
        return Err(CarrierDrop::Segmented);
    }
    if packet.has_secondary_header != (header_len > 0) {
        return Err(CarrierDrop::SecondaryHeader);
    }
    behind_header(header_len, packet.body)
}

/// Returns what stands after `header_len` octets.
///
/// # Errors
///
/// `Empty` if nothing does.
fn behind_header(header_len: u8, body: &[u8]) -> Result<&[u8], CarrierDrop>
    ensures found { IfOk result (λ pdu. (header : List ℕ) × (length header ≡ header_len)
        × (body.now ≡ header ++ pdu.now)) }
    ensures only { (header pdu : List ℕ) → length header ≡ header_len → 1 ≤ length pdu →
        body.now ≡ header ++ pdu → IsOkAnd result (λ found. found.now ≡ pdu) }
    ensures some { IfOk result (λ pdu. 1 ≤ length pdu.now) }
{
    let start = usize::from(header_len);
    if body.len() <= start {
        return Err(CarrierDrop::Empty);
    }
    Ok(&body[start..])
}

/// Returns the lane of a PDU, by the type bit of its header (CCSDS 727.0-B-5, table 5-1): file
/// data, or a directive.
pub fn lane_of(pdu: &[u8]) -> Lane
    requires { 1 ≤ length pdu.now }
    ensures { result ≡ pdu_lane pdu.now }
{
    match get(pdu, 3, 1) {
        0 => Lane::Directives,
        _ => Lane::Data,
    }
}

/// Writes the packet of a PDU, of this APID and with this count, into the first octets of `out`,
/// and says how many they are; `None` if the PDU fits no packet, or one of both doesn't fit. Its
/// data field is put together in `body`.
pub fn put_pdu(
    form: PacketForm,
    apid: u16,
    count: u16,
    pdu: &[u8],
    body: &mut [u8],
    out: &mut [u8],
) -> Option<usize>
    ensures within { IfSome result (λ len. len ≤ length out.new) }
    ensures some { IsWritable (sent_packet form apid count pdu.now) →
        65536 ≤ length body.old → 65542 ≤ length out.old → IsSome result }
    ensures written { IfSome result (λ len. take len out.new
        ≡ packet_octets (sent_packet form apid count pdu.now)) }
{
    let len = put_body(form.secondary_header, pdu, body)?;
    put_packet(form, apid, count, &body[..len], out)
}

/// Writes a secondary header of `header_len` octets, all zero, and a PDU after it into the first
/// octets, and says how many they are; `None` if they don't fit.
fn put_body(header_len: u8, pdu: &[u8], out: &mut [u8]) -> Option<usize>
    ensures within { IfSome result (λ len. len ≤ length out.new) }
    ensures some { header_len + length pdu.now ≤ length out.old → IsSome result }
    ensures written { IfSome result (λ len. take len out.new
        ≡ replicate header_len 0 ++ pdu.now) }
{
    let start = usize::from(header_len);
    if out.len() < start + pdu.len() {
        return None;
    }
    out[..start].fill(0);
    Some(put_bytes(out, start, pdu))
}

/// Writes the packet with this data field, of this APID and with this count, into the first octets,
/// and says how many they are; `None` if the field fits no packet, or the packet not into the
/// octets. Before the field's PDU stands the secondary header, if there is one.
fn put_packet(form: PacketForm, apid: u16, count: u16, body: &[u8], out: &mut [u8]) -> Option<usize>
    ensures within { IfSome result (λ len. len ≤ length out.new) }
    ensures some { (pdu : List ℕ) → body.now ≡ replicate form.secondary_header 0 ++ pdu →
        IsWritable (sent_packet form apid count pdu) → 6 + length body.now ≤ length out.old →
        IsSome result }
    ensures written { (pdu : List ℕ) → body.now ≡ replicate form.secondary_header 0 ++ pdu →
        IfSome result (λ len. take len out.new ≡ packet_octets (sent_packet form apid count pdu)) }
{
    let packet = Packet {
        apid,
        packet_type: form.packet_type,
        has_secondary_header: form.secondary_header > 0,
        sequence_flags: SequenceFlags::Unsegmented,
        count,
        body,
    };
    if !packet.is_writable() || out.len() < HEADER_LEN + body.len() {
        return None;
    }
    Some(space_packet::encode(&packet, out))
}
