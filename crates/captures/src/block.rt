//! Blocks of a pcapng file (draft-ietf-opsawg-pcapng, 3.1 and 4).
ghost use Rattle.std.specs.Prelude.{◌≡◌, ◌+◌, ◌≤◌, ℕ, List, ◌<◌, length, IfOk, IfSome, IsOkAnd};
ghost use Rattle.std.specs.Option.{option_map};
ghost use Rattle.std.specs.Result.{result_err, result_ok};
ghost use Rattle.captures.specs.Blocks as blocks;
ghost use Rattle.captures.specs.Blocks.{BlockText, SpellsBlock, block_text, block_fault};
ghost use Rattle.captures.specs.Packets.{PacketText, packet_text};

use crate::fault::CaptureFault;
use crate::order::{ByteOrder, number, short};
use crate::packet::{CapturedPacket, Interface};

/// The kind of a section header, the same in either order of octets.
pub(crate) const SECTION: u32 = 0x0A0D_0D0A;

/// The octets of a block beside its body: its kind, and its length before and after the body.
const AROUND: usize = 12;

/// A block.
#[derive(Clone, Copy, Debug)]
pub(crate) struct Block<'a> {
    /// The order of the octets of its numbers.
    pub(crate) order: ByteOrder,
    /// Its kind.
    pub(crate) kind: u32,
    /// What stands between its lengths.
    pub(crate) body: &'a [u8],
}

/// Returns the order of the octets of the block at the front of a text, in a section of this order:
/// a section header gives its own. `None` if it gives neither.
fn block_order(order: ByteOrder, text: &[u8]) -> Option<ByteOrder>
    requires { 12 ≤ length text.now }
    ensures { result ≡ blocks.block_order order text.now }
{
    if number(ByteOrder::BigEndian, text, 0) != SECTION {
        Some(order)
    } else if number(ByteOrder::BigEndian, text, 8) == 0x1A2B_3C4D {
        Some(ByteOrder::BigEndian)
    } else if number(ByteOrder::LittleEndian, text, 8) == 0x1A2B_3C4D {
        Some(ByteOrder::LittleEndian)
    } else {
        None
    }
}

/// Returns the block at the front of a text, in a section of this order, and what is after it.
///
/// # Errors
///
/// `CutOff` if the text ends in it, `BadOrder` if a section header has neither order, or
/// `BadLength` if its lengths don't fit.
pub(crate) fn take_block(order: ByteOrder, text: &[u8]) -> Result<(Block<'_>, &[u8]), CaptureFault>
    ensures found { IfOk result (λ x. SpellsBlock order (block_text x.0) text.now x.1.now) }
    ensures only { (b : BlockText) (rest : List ℕ) → SpellsBlock order b text.now rest →
        IsOkAnd result (λ x. (block_text x.0 ≡ b) × (x.1.now ≡ rest)) }
    ensures refused { result_err result ≡ block_fault order text.now }
    ensures shorter { IfOk result (λ x. length x.1.now + 12 ≤ length text.now) }
{
    if text.len() < AROUND {
        return Err(CaptureFault::CutOff);
    }
    let Some(order) = block_order(order, text) else {
        return Err(CaptureFault::BadOrder);
    };
    let total = number(order, text, 4) as usize;
    if total < AROUND || !total.is_multiple_of(4) {
        return Err(CaptureFault::BadLength);
    }
    if text.len() < total {
        return Err(CaptureFault::CutOff);
    }
    if number(order, text, total - 4) as usize != total {
        return Err(CaptureFault::BadLength);
    }
    let kind = number(order, text, 0);
    let (block, rest) = text.split_at(total);
    let body = &block[8..total - 4];
    Ok((Block { order, kind, body }, rest))
}

/// Checks the body of a section header.
///
/// # Errors
///
/// `BadLength` if it is too short, or `BadVersion` if its version isn't read.
pub(crate) fn check_section(order: ByteOrder, body: &[u8]) -> Result<(), CaptureFault>
    ensures { result_err result ≡ blocks.section_fault order body.now }
{
    if body.len() < 16 {
        return Err(CaptureFault::BadLength);
    }
    if short(order, body, 4) == 1 {
        Ok(())
    } else {
        Err(CaptureFault::BadVersion)
    }
}

/// Returns the interface that the body of its block describes.
///
/// # Errors
///
/// `BadLength` if it is too short.
pub(crate) fn read_interface(order: ByteOrder, body: &[u8]) -> Result<Interface, CaptureFault>
    ensures found { IfOk result (λ x. x ≡ blocks.interface_in order body.now) }
    ensures refused { result_err result ≡ blocks.interface_fault body.now }
{
    if body.len() < 8 {
        return Err(CaptureFault::BadLength);
    }
    Ok(Interface {
        link_type: short(order, body, 0),
        snap_len: number(order, body, 4),
    })
}

/// Returns the packet of the body of an enhanced packet block.
///
/// # Errors
///
/// `BadLength` if a length doesn't fit, or `BadInterface` if its interface wasn't described.
pub(crate) fn read_enhanced<'a>(
    order: ByteOrder,
    interfaces: &[Interface],
    body: &'a [u8],
) -> Result<CapturedPacket<'a>, CaptureFault>
    ensures found { IfOk result (λ p. packet_text p
        ≡ blocks.enhanced_packet order interfaces.now body.now) }
    ensures refused { result_err result ≡ blocks.enhanced_fault order interfaces.now body.now }
{
    if body.len() < 20 {
        return Err(CaptureFault::BadLength);
    }
    let place = number(order, body, 0) as usize;
    if place >= interfaces.len() {
        return Err(CaptureFault::BadInterface);
    }
    let (_, behind) = body.split_at(20);
    let captured = number(order, body, 12) as usize;
    if behind.len() < captured {
        return Err(CaptureFault::BadLength);
    }
    let (octets, _) = behind.split_at(captured);
    Ok(CapturedPacket {
        link_type: interfaces[place].link_type,
        original: number(order, body, 16),
        octets,
    })
}

/// Returns the packet of the body of a simple packet block, which is of the first interface.
///
/// # Errors
///
/// `BadLength` if a length doesn't fit, or `BadInterface` if no interface was described.
pub(crate) fn read_simple<'a>(
    order: ByteOrder,
    interfaces: &[Interface],
    body: &'a [u8],
) -> Result<CapturedPacket<'a>, CaptureFault>
    ensures found { IfOk result (λ p. packet_text p
        ≡ blocks.simple_packet order interfaces.now body.now) }
    ensures refused { result_err result ≡ blocks.simple_fault order interfaces.now body.now }
{
    if body.len() < 4 {
        return Err(CaptureFault::BadLength);
    }
    if interfaces.is_empty() {
        return Err(CaptureFault::BadInterface);
    }
    let interface = interfaces[0];
    let original = number(order, body, 0);
    let captured = captured_of(original, interface.snap_len);
    let (_, behind) = body.split_at(4);
    if behind.len() < captured {
        return Err(CaptureFault::BadLength);
    }
    let (octets, _) = behind.split_at(captured);
    Ok(CapturedPacket {
        link_type: interface.link_type,
        original,
        octets,
    })
}

/// Returns how many octets of a packet are captured under a limit; there is no limit if it is 0.
fn captured_of(original: u32, snap_len: u32) -> usize
    ensures { result ≡ blocks.captured_of original snap_len }
{
    if snap_len == 0 || original <= snap_len {
        original as usize
    } else {
        snap_len as usize
    }
}
