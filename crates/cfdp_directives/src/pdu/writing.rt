ghost use Rattle.std.specs.Prelude.{◌≡◌, ℕ, ◌+◌, ◌*◌, ◌^◌, ◌<◌, ◌≤◌, ◌++◌, false, List, length};
ghost use Rattle.std.specs.Prelude.{take, drop, true, IsTrue, ◌↔◌};
ghost use Rattle.cfdp_header.specs.Crc.{crc_len, with_crc};
ghost use Rattle.cfdp_header.specs.Header.{header_len};
ghost use Rattle.cfdp_directives.specs.Pdu.Codes.{file_size_octets};
ghost use Rattle.cfdp_directives.specs.Pdu.Content.{Content, FileData, Metadata, Eof, Finished};
ghost use Rattle.cfdp_directives.specs.Pdu.Content.{Ack, Nak, Prompt, KeepAlive, view};
ghost use Rattle.cfdp_directives.specs.Pdu.Grammar.{fss, lv};
ghost use Rattle.cfdp_directives.specs.Pdu.Written.{content_octets, content_len, FitsContent};
ghost use Rattle.cfdp_directives.specs.Pdu.Written.{CanWrite, IsHeaderOf, pdu_octets};

use crate::pdu::codes::{
    Acknowledged, ChecksumKind, Condition, Delivery, FileStatus, TransactionStatus,
};
use crate::pdu::content::Pdu;
use crate::pdu::file_size::put_file_size;
use crate::pdu::pairs::SegmentRequests;
use crate::pdu::tlv::Tlvs;
use cfd_bits::{put_bytes, put_uint};
use cfdp_header::Header;
use crc::crc16;

// Octets of the CRC of a PDU.
pub(crate) const CRC_LEN: usize = 2;

#[tactic(auto, using(crate::proofs::Spelling::one_octet))]
fn put_lv(out: &mut [u8], at: usize, value: &[u8]) -> usize
    requires room { at + 1 + length value.now ≤ length out.old }
    requires short { length value.now < 256 }
    ensures end { result ≡ at + 1 + length value.now }
    ensures front { take result out.new ≡ take at out.old ++ lv value.now }
{
    let at = put_uint(out, at, 1, value.len() as u64);
    put_bytes(out, at, value)
}

fn put_file_data(out: &mut [u8], at: usize, large: bool, offset: u64, bytes: &[u8]) -> usize
    requires fits { FitsContent (file_size_octets large) (FileData offset bytes.now) }
    requires room { at + content_len (file_size_octets large) (FileData offset bytes.now)
        ≤ length out.old }
    ensures end { result ≡ at + content_len (file_size_octets large) (FileData offset bytes.now) }
    ensures front { take result out.new
        ≡ take at out.old ++ content_octets (file_size_octets large) (FileData offset bytes.now) }
{
    let at = put_file_size(out, at, large, offset);
    put_bytes(out, at, bytes)
}

fn put_metadata(
    out: &mut [u8],
    at: usize,
    large: bool,
    checksum_kind: ChecksumKind,
    size: u64,
    source: &[u8],
    destination: &[u8],
    options: &Tlvs<'_>,
) -> usize
    requires fits { FitsContent (file_size_octets large)
        (Metadata checksum_kind size source.now destination.now options.now) }
    requires room { at + content_len (file_size_octets large)
        (Metadata checksum_kind size source.now destination.now options.now)
        ≤ length out.old }
    ensures end { result
        ≡ at + content_len (file_size_octets large)
        (Metadata checksum_kind size source.now destination.now options.now) }
    ensures front { take result out.new
        ≡ take at out.old
        ++ content_octets (file_size_octets large)
        (Metadata checksum_kind size source.now destination.now options.now) }
{
    let at = put_uint(out, at, 1, 7);
    let at = put_uint(out, at, 1, u64::from(checksum_kind.code()));
    let at = put_file_size(out, at, large, size);
    let at = put_lv(out, at, source);
    let at = put_lv(out, at, destination);
    put_bytes(out, at, options.octets())
}

fn put_eof(
    out: &mut [u8],
    at: usize,
    large: bool,
    condition: Condition,
    checksum: u32,
    size: u64,
    tlvs: &Tlvs<'_>,
) -> usize
    requires fits { FitsContent (file_size_octets large) (Eof condition checksum size tlvs.now) }
    requires room { at + content_len (file_size_octets large) (Eof condition checksum size tlvs.now)
        ≤ length out.old }
    ensures end { result
        ≡ at + content_len (file_size_octets large) (Eof condition checksum size tlvs.now) }
    ensures front { take result out.new
        ≡ take at out.old
        ++ content_octets (file_size_octets large) (Eof condition checksum size tlvs.now) }
{
    let at = put_uint(out, at, 1, 4);
    let at = put_uint(out, at, 1, 16 * u64::from(condition.code()));
    let at = put_uint(out, at, 4, u64::from(checksum));
    let at = put_file_size(out, at, large, size);
    put_bytes(out, at, tlvs.octets())
}

#[tactic(auto, using(crate::proofs::Spelling::delivery_below, crate::proofs::Spelling::file_status_below))]
fn put_finished(
    out: &mut [u8],
    at: usize,
    condition: Condition,
    delivery: Delivery,
    status: FileStatus,
    tlvs: &Tlvs<'_>,
) -> usize
    requires room { at
        + content_len (file_size_octets false) (Finished condition delivery status tlvs.now)
        ≤ length out.old }
    ensures end { result
        ≡ at + content_len (file_size_octets false) (Finished condition delivery status tlvs.now) }
    ensures front { take result out.new
        ≡ take at out.old
        ++ content_octets (file_size_octets false) (Finished condition delivery status tlvs.now) }
{
    let second = 16 * u64::from(condition.code())
        + 4 * u64::from(delivery.code())
        + u64::from(status.code());
    let at = put_uint(out, at, 1, 5);
    let at = put_uint(out, at, 1, second);
    put_bytes(out, at, tlvs.octets())
}

#[tactic(auto, using(crate::proofs::Spelling::acknowledged_below, crate::proofs::Spelling::transaction_status_below))]
fn put_ack(
    out: &mut [u8],
    at: usize,
    of: Acknowledged,
    condition: Condition,
    status: TransactionStatus,
) -> usize
    requires room { at + content_len (file_size_octets false) (Ack of condition status)
        ≤ length out.old }
    ensures end { result ≡ at + content_len (file_size_octets false) (Ack of condition status) }
    ensures front { take result out.new
        ≡ take at out.old ++ content_octets (file_size_octets false) (Ack of condition status) }
{
    let second = 16 * u64::from(of.code()) + u64::from(of.subtype());
    let third = 16 * u64::from(condition.code()) + u64::from(status.code());
    let at = put_uint(out, at, 1, 6);
    let at = put_uint(out, at, 1, second);
    put_uint(out, at, 1, third)
}

fn put_nak(
    out: &mut [u8],
    at: usize,
    large: bool,
    start: u64,
    end: u64,
    pairs: &SegmentRequests<'_>,
) -> usize
    requires fits { FitsContent (file_size_octets large) (Nak start end pairs.now) }
    requires room { at + content_len (file_size_octets large) (Nak start end pairs.now)
        ≤ length out.old }
    ensures end { result ≡ at + content_len (file_size_octets large) (Nak start end pairs.now) }
    ensures front { take result out.new
        ≡ take at out.old ++ content_octets (file_size_octets large) (Nak start end pairs.now) }
{
    let at = put_uint(out, at, 1, 8);
    let at = put_file_size(out, at, large, start);
    let at = put_file_size(out, at, large, end);
    pairs.put(out, at, large)
}

fn put_prompt(out: &mut [u8], at: usize, keep_alive: bool) -> usize
    requires room { at + content_len (file_size_octets false) (Prompt keep_alive) ≤ length out.old }
    ensures end { result ≡ at + content_len (file_size_octets false) (Prompt keep_alive) }
    ensures front { take result out.new
        ≡ take at out.old ++ content_octets (file_size_octets false) (Prompt keep_alive) }
{
    let at = put_uint(out, at, 1, 9);
    put_uint(out, at, 1, 128 * u64::from(keep_alive))
}

fn put_keep_alive(out: &mut [u8], at: usize, large: bool, progress: u64) -> usize
    requires fits { FitsContent (file_size_octets large) (KeepAlive progress) }
    requires room { at + content_len (file_size_octets large) (KeepAlive progress)
        ≤ length out.old }
    ensures end { result ≡ at + content_len (file_size_octets large) (KeepAlive progress) }
    ensures front { take result out.new
        ≡ take at out.old ++ content_octets (file_size_octets large) (KeepAlive progress) }
{
    let at = put_uint(out, at, 1, 12);
    put_file_size(out, at, large, progress)
}

/// Returns `true` if the PDU can be written after this header: both must fit their fields, and the
/// header must have this kind and length, and no segment metadata.
pub fn can_write(header: &Header, pdu: &Pdu<'_>) -> bool
    ensures { IsTrue result ↔ CanWrite header.now (view pdu.now) }
{
    header.fits() && pdu.fits(header.large) && is_header_of(header, pdu)
}

/// Returns `true` if the header has this kind of content and its length with the CRC.
fn is_header_of(header: &Header, pdu: &Pdu<'_>) -> bool
    ensures { IsTrue result ↔ IsHeaderOf header.now (view pdu.now) }
{
    header.pdu_type == pdu.pdu_type()
        && !header.segment_metadata
        && pdu.has_len(header.large, header.crc_len(), header.length)
}

/// Writes the PDU into the first octets of `out`, spare bits as 0, and returns how many they are.
/// The octets after them stay as they were.
///
/// If `header.crc` is true, its last two octets are the CRC of the octets before. `header.length`
/// must be `pdu.len()` and the octets of the CRC, and `header.pdu_type` must be the kind of the
/// PDU: `can_write` tests it.
#[tactic(auto, using(crate::proofs::Spelling::behind_data))]
pub fn encode(header: &Header, pdu: &Pdu<'_>, out: &mut [u8]) -> usize
    requires fits { CanWrite header.now (view pdu.now) }
    requires room { header_len header.now.id_width header.now.number_width + header.now.length
        ≤ length out.old }
    ensures end { result
        ≡ header_len header.now.id_width header.now.number_width + header.now.length }
    ensures front { take result out.new ≡ pdu_octets header.now (view pdu.now) }
    ensures behind { drop result out.new ≡ drop result out.old }
{
    let at = cfdp_header::encode(header, out);
    put_data_field(&mut out[..at + header.length as usize], at, header, pdu)
}

/// Writes the data field of a PDU after its header, the first `at` octets, with the CRC if the
/// header has the flag, and returns where it ends.
fn put_data_field(out: &mut [u8], at: usize, header: &Header, pdu: &Pdu<'_>) -> usize
    requires fits { FitsContent (fss header.now) (view pdu.now) }
    requires room { at + content_len (fss header.now) (view pdu.now) + crc_len header.now.crc
        ≤ length out.old }
    ensures end { result
        ≡ at + content_len (fss header.now) (view pdu.now) + crc_len header.now.crc }
    ensures front { take result out.new ≡ with_crc header.now.crc
        (take at out.old ++ content_octets (fss header.now) (view pdu.now)) }
{
    let end = put_content(out, at, header.large, pdu);
    put_crc_if(header.crc, out, end)
}

/// Writes the CRC of the first `at` octets after them, if `crc` is set, and returns where the PDU
/// ends. The octets after it stay as they were.
pub(crate) fn put_crc_if(crc: bool, out: &mut [u8], at: usize) -> usize
    requires { at + crc_len crc ≤ length out.old }
    ensures end { result ≡ at + crc_len crc }
    ensures front { take result out.new ≡ with_crc crc (take at out.old) }
    ensures behind { drop result out.new ≡ drop result out.old }
{
    if crc { put_crc(out, at) } else { at }
}

/// Writes the CRC of the first `at` octets after them, and returns where it ends.
fn put_crc(out: &mut [u8], at: usize) -> usize
    requires { at + 2 ≤ length out.old }
    ensures end { result ≡ at + 2 }
    ensures front { take result out.new ≡ with_crc true (take at out.old) }
    ensures behind { drop result out.new ≡ drop result out.old }
{
    let (covered, _) = out.split_at(at);
    let check = crc16(covered);
    put_uint(out, at, CRC_LEN, u64::from(check))
}

/// Writes the data field of a PDU, without a CRC, after the first `at` octets, and returns where it
/// ends.
fn put_content(out: &mut [u8], at: usize, large: bool, pdu: &Pdu<'_>) -> usize
    requires fits { FitsContent (file_size_octets large) (view pdu.now) }
    requires room { at + content_len (file_size_octets large) (view pdu.now) ≤ length out.old }
    ensures end { result ≡ at + content_len (file_size_octets large) (view pdu.now) }
    ensures front { take result out.new
        ≡ take at out.old ++ content_octets (file_size_octets large) (view pdu.now) }
{
    match pdu {
        Pdu::FileData { offset, bytes } => put_file_data(out, at, large, *offset, bytes),
        Pdu::Metadata {
            checksum_kind,
            size,
            source,
            destination,
            options,
        } => put_metadata(
            out,
            at,
            large,
            *checksum_kind,
            *size,
            source,
            destination,
            options,
        ),
        Pdu::Eof {
            condition,
            checksum,
            size,
            tlvs,
        } => put_eof(out, at, large, *condition, *checksum, *size, tlvs),
        Pdu::Finished {
            condition,
            delivery,
            status,
            tlvs,
        } => put_finished(out, at, *condition, *delivery, *status, tlvs),
        Pdu::Ack {
            of,
            condition,
            status,
        } => put_ack(out, at, *of, *condition, *status),
        Pdu::Nak {
            start,
            end,
            requests,
        } => put_nak(out, at, large, *start, *end, requests),
        Pdu::Prompt { keep_alive } => put_prompt(out, at, *keep_alive),
        Pdu::KeepAlive { progress } => put_keep_alive(out, at, large, *progress),
    }
}
