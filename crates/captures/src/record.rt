//! The header of a pcap file, and its packet records (draft-ietf-opsawg-pcap, 4 and 5).
ghost use Rattle.std.specs.Prelude.{◌≡◌, ℕ, List, ◌≤◌, length, IfOk, IsOkAnd};
ghost use Rattle.std.specs.Result.{result_err};
ghost use Rattle.captures.specs.Packets.{PacketText, packet_text};
ghost use Rattle.captures.specs.Records as records;
ghost use Rattle.captures.specs.Records.{SpellsHeader, SpellsRecord, header_fault, record_fault};
ghost use Rattle.captures.specs.declared.packet.Interface.{Interface};

use crate::fault::CaptureFault;
use crate::order::{ByteOrder, number, short};
use crate::packet::{CapturedPacket, Interface};

/// The octets of a record before its packet.
const RECORD_HEADER: usize = 16;

/// The octets of the header of a file.
const FILE_HEADER: usize = 24;

/// Returns `true` if a file begins with a magic number in this order.
pub(crate) fn has_magic(order: ByteOrder, text: &[u8]) -> bool
    requires { 4 ≤ length text.now }
    ensures { result ≡ records.has_magic order text.now }
{
    let magic = number(order, text, 0);
    magic == 0xA1B2_C3D4 || magic == 0xA1B2_3C4D
}

/// Returns the interface that the header of a file describes, and what is after the header.
///
/// # Errors
///
/// `CutOff` if the text ends in it, or `BadVersion` if its version isn't read.
pub(crate) fn take_header(order: ByteOrder, text: &[u8]) -> Result<(Interface, &[u8]), CaptureFault>
    ensures found { IfOk result (λ x. SpellsHeader order x.0 text.now x.1.now) }
    ensures only { (i : Interface) (rest : List ℕ) → SpellsHeader order i text.now rest →
        IsOkAnd result (λ x. (x.0 ≡ i) × (x.1.now ≡ rest)) }
    ensures refused { result_err result ≡ header_fault order text.now }
{
    if text.len() < FILE_HEADER {
        return Err(CaptureFault::CutOff);
    }
    if short(order, text, 4) != 2 || short(order, text, 6) != 4 {
        return Err(CaptureFault::BadVersion);
    }
    let interface = Interface {
        link_type: (number(order, text, 20) % 65_536) as u16,
        snap_len: number(order, text, 16),
    };
    let (_, rest) = text.split_at(FILE_HEADER);
    Ok((interface, rest))
}

/// Returns the record at the front of a text, of a packet of this link type, and what is after it.
///
/// # Errors
///
/// `CutOff` if the text ends in it.
pub(crate) fn take_record(
    order: ByteOrder,
    link_type: u16,
    text: &[u8],
) -> Result<(CapturedPacket<'_>, &[u8]), CaptureFault>
    ensures found { IfOk result (λ x. SpellsRecord order link_type (packet_text x.0) text.now
        x.1.now) }
    ensures only { (p : PacketText) (rest : List ℕ) → SpellsRecord order link_type p text.now rest
        → IsOkAnd result (λ x. (packet_text x.0 ≡ p) × (x.1.now ≡ rest)) }
    ensures refused { result_err result ≡ record_fault order text.now }
{
    if text.len() < RECORD_HEADER {
        return Err(CaptureFault::CutOff);
    }
    let captured = number(order, text, 8) as usize;
    let original = number(order, text, 12);
    let (_, behind) = text.split_at(RECORD_HEADER);
    if behind.len() < captured {
        return Err(CaptureFault::CutOff);
    }
    let (octets, rest) = behind.split_at(captured);
    let packet = CapturedPacket {
        link_type,
        original,
        octets,
    };
    Ok((packet, rest))
}
