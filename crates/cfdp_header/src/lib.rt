//! The fixed header of a PDU (CCSDS 727.0-B-5, 5.1): read from octets and written into them.
//!
//! ```
//! match cfdp_header::decode(octets) {
//!     Ok((header, data_field)) => println!(rt; "{} octets for {}", data_field.len(), header.destination)?,
//!     Err(refused) => println!(rt; "refused: {}", refused.name())?,
//! }
//! ```
//!
//! Tested by `tests/transcripts/pdus.txt` and `tests/transcripts/rules.txt`.
#![tactic(auto)]

ghost use Rattle.std.specs.Prelude.{◌≡◌, ℕ, ◌+◌, ◌*◌, ◌^◌, ◌<◌, ◌≤◌, ◌++◌, List, length, take};
ghost use Rattle.std.specs.Prelude.{drop, true, is_some, None, IfSome, IfOk, IsOkAnd};
ghost use Rattle.std.specs.Result.{result_err};
ghost use Rattle.cfd_bits.specs.Field.{field};
ghost use Rattle.crc.specs.Checks.{ends_in_check};
ghost use Rattle.crc.specs.Damage.{IsDamaged};
ghost use Rattle.cfdp_header.specs.Crc.{crc_len, has_crc, with_crc};
ghost use Rattle.cfdp_header.specs.Crc as crcs;
ghost use Rattle.cfdp_header.specs.declared.value.Header.{Header};
ghost use Rattle.cfdp_header.specs.Header.{SpellsHeader, header_fault, FitsHeader, header_octets};
ghost use Rattle.cfdp_header.specs.Header.{header_len, type_bit, direction_bit};

mod error;
mod value;

use cfd_bits::{get, put_uint, read_eight, read_uint};
use crc::crc16;
pub use error::HeaderError;
use value::CRC_LEN;
pub use value::{Direction, Header, PduType, TransactionId, fits_width};

/// Returns the number of `count` octets from octet `at` on. If eight are there, they are read at
/// once, and the octets after the number are cut off.
#[inline]
#[tactic(auto, using(crate::proofs::Laws::field_behind, crate::proofs::Laws::field_in_eight))]
fn number_at(bytes: &[u8], at: usize, count: usize) -> u64
    requires room { at + count ≤ length bytes.now }
    requires some { 1 ≤ count }
    requires narrow { count ≤ 8 }
    ensures { result ≡ field bytes.now (8 * at) (8 * count) }
{
    let (_, rest) = bytes.split_at(at);
    if rest.len() < 8 {
        return read_uint(rest, count);
    }
    read_eight(rest) >> (64 - 8 * count)
}

/// Returns the PDU type in the first octet.
fn pdu_type_in(bytes: &[u8]) -> PduType
    requires { 1 ≤ length bytes.now }
    ensures { type_bit result ≡ field bytes.now 3 1 }
{
    match get(bytes, 3, 1) {
        0 => PduType::FileDirective,
        _ => PduType::FileData,
    }
}

/// Returns the direction in the first octet.
fn direction_in(bytes: &[u8]) -> Direction
    requires { 1 ≤ length bytes.now }
    ensures { direction_bit result ≡ field bytes.now 4 1 }
{
    match get(bytes, 4, 1) {
        0 => Direction::TowardReceiver,
        _ => Direction::TowardSender,
    }
}

/// Returns the data field after a header of so many octets, without its CRC if the flag says that
/// there is one; `None` if the CRC is wrong.
fn before_crc(bytes: &[u8], header_len: usize, crc: bool) -> Option<&[u8]>
    requires { header_len ≤ length bytes.now }
    ensures found { IfSome result (λ d. d.now
        ≡ crcs.before_crc crc (drop header_len bytes.now)) }
    ensures right { is_some result ≡ has_crc crc header_len bytes.now }
{
    let (_, data) = bytes.split_at(header_len);
    if !crc {
        return Some(data);
    }
    if bytes.len() - header_len < CRC_LEN || !ends_in_crc(bytes) {
        return None;
    }
    let (data, _) = data.split_at(data.len() - CRC_LEN);
    Some(data)
}

/// Returns `true` if the last two octets are the check of all before them.
fn ends_in_crc(bytes: &[u8]) -> bool
    requires { 2 ≤ length bytes.now }
    ensures { result ≡ ends_in_check bytes.now }
{
    let (covered, check) = bytes.split_at(bytes.len() - CRC_LEN);
    read_uint(check, CRC_LEN) == u64::from(crc16(covered))
}

/// Returns the header at the front of `bytes`, which must be a whole PDU, and its data field
/// without the CRC.
///
/// Any value of the segmentation control bit is accepted (CCSDS 727.0-B-5, table 5-1).
///
/// # Errors
///
/// The first of these that holds, in this order: `Short`, `Version`, `Unacknowledged`, `Short`
/// again if the header isn't whole, `Length`, `BadCrc`. `HeaderError` says what each means.
pub fn decode(bytes: &[u8]) -> Result<(Header, &[u8]), HeaderError>
    // What is answered is spelled so.
    ensures found { IfOk result (λ x. SpellsHeader x.0 bytes.now) }
    // The data field, as if there were no CRC.
    ensures rest { IfOk result (λ x. x.1.now
        ≡ crcs.before_crc x.0.crc (drop (header_len x.0.id_width x.0.number_width) bytes.now)) }
    // What is spelled so is answered.
    ensures only { (h : Header) → SpellsHeader h bytes.now → IsOkAnd result (λ x. x.0 ≡ h) }
    // Which refusal it is.
    ensures refused { result_err result ≡ header_fault bytes.now }
{
    if bytes.len() < 4 {
        return Err(HeaderError::Short);
    }
    if get(bytes, 0, 3) != 1 {
        return Err(HeaderError::Version);
    }
    if get(bytes, 5, 1) != 0 {
        return Err(HeaderError::Unacknowledged);
    }
    let id_width = get(bytes, 25, 3) as u8 + 1;
    let number_width = get(bytes, 29, 3) as u8 + 1;
    let length = get(bytes, 8, 16) as u16;
    let id_octets = id_width as usize;
    let number_octets = number_width as usize;
    let len = Header::len_in_widths(id_width, number_width);
    if bytes.len() < len {
        return Err(HeaderError::Short);
    }
    if bytes.len() != len + length as usize {
        return Err(HeaderError::Length);
    }
    let crc = get(bytes, 6, 1) == 1;
    let Some(data) = before_crc(bytes, len, crc) else {
        return Err(HeaderError::BadCrc);
    };
    let header = Header {
        pdu_type: pdu_type_in(bytes),
        direction: direction_in(bytes),
        crc,
        large: get(bytes, 7, 1) == 1,
        length,
        segment_metadata: get(bytes, 28, 1) == 1,
        id_width,
        number_width,
        id: TransactionId {
            source: number_at(bytes, 4, id_octets),
            number: number_at(bytes, 4 + id_octets, number_octets),
        },
        destination: number_at(bytes, 4 + id_octets + number_octets, id_octets),
    };
    Ok((header, data))
}

/// Writes the header into the first octets of `out`, spare bits as 0, and returns how many they
/// are. The octets after them stay as they were.
///
/// The caller must write the data field, of `header.length` octets, after it, and must end it in
/// the CRC if the header has the flag.
#[tactic(auto, using(crate::proofs::Laws::flag_below, crate::proofs::Laws::type_below, crate::proofs::Laws::direction_below))]
pub fn encode(header: &Header, out: &mut [u8]) -> usize
    requires fits { FitsHeader header.now }
    requires room { header_len header.now.id_width header.now.number_width ≤ length out.old }
    ensures len { result ≡ header_len header.now.id_width header.now.number_width }
    ensures text { take result out.new ≡ header_octets header.now }
    ensures behind { drop result out.new ≡ drop result out.old }
{
    let first = 32
        + 16 * u64::from(header.pdu_type.bit())
        + 8 * u64::from(header.direction.bit())
        + 2 * u64::from(header.crc)
        + u64::from(header.large);
    let widths = 16 * (u64::from(header.id_width) - 1)
        + 8 * u64::from(header.segment_metadata)
        + (u64::from(header.number_width) - 1);
    let id_octets = header.id_width as usize;
    let number_octets = header.number_width as usize;
    let out = &mut out[..4 + id_octets + number_octets + id_octets];
    let at = put_uint(out, 0, 1, first);
    let at = put_uint(out, at, 2, u64::from(header.length));
    let at = put_uint(out, at, 1, widths);
    let at = put_uint(out, at, id_octets, header.id.source);
    let at = put_uint(out, at, number_octets, header.id.number);
    put_uint(out, at, id_octets, header.destination)
}

/// A law: no spelling of a header with its data field begins another, and one spelling has one
/// header.
pub fn no_header_begins_another()
    ensures { (a b x y : List ℕ) (h k : Header) → SpellsHeader h a → SpellsHeader k b → a ++ x ≡ b
        ++ y
        → (a ≡ b) × (h ≡ k) }
{}

/// A law: what is written of a header spells that header if a data field of its length follows,
/// with the CRC if the header has the flag.
pub fn written_header_is_read()
    ensures { (h : Header) (rest : List ℕ) → FitsHeader h
        → length rest + crc_len h.crc ≡ h.length
        → SpellsHeader h (with_crc h.crc (header_octets h ++ rest)) }
{}

/// A law: a header that was read can be written in the widths in which it was read, and so can a
/// reply that has its ids, number and widths.
pub fn a_header_read_can_be_written()
    ensures { (h : Header) (text : List ℕ) → SpellsHeader h text → FitsHeader h }
{}

/// A law: a PDU with a CRC, of up to 2,048 octets, is refused if one, two or three of its bits were
/// turned on the way, or any bits within 16 in a row, unless the CRC flag is among these.
pub fn damage_is_seen()
    ensures { (h : Header) (sent came : List ℕ) → SpellsHeader h sent → h.crc ≡ true
        → length sent ≤ 2048 → IsDamaged sent came → header_fault came ≡ None
        → field came 6 1 ≡ 0 }
{}
