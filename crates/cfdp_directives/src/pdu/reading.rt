ghost use Rattle.std.specs.Prelude.{◌≡◌, ℕ, ◌+◌, ◌*◌, ◌<◌, ◌≤◌, ◌++◌, Bool, length, drop, Some};
ghost use Rattle.std.specs.Prelude.{None, is_some, IfSome, IfOk, IsOkAnd, true, false};
ghost use Rattle.std.specs.Prelude.{if◌then◌else◌};
ghost use Rattle.std.specs.Result.{result_err};
ghost use Rattle.cfd_bits.specs.Field.{field};
ghost use Rattle.cfdp_header.specs.Header.{type_bit};
ghost use Rattle.cfdp_header.specs.declared.value.Header.{Header};
ghost use Rattle.cfdp_header.specs.declared.value.PduType.TheVariants as types;
ghost use Rattle.cfdp_directives.specs.declared.pdu.error.PduError.TheVariants as errors;
ghost use Rattle.cfdp_directives.specs.Pdu.Codes.{is_refused};
ghost use Rattle.cfdp_directives.specs.Pdu.Content.{Content, view};
ghost use Rattle.cfdp_directives.specs.Pdu.Grammar.{Says, SpellsPdu, lv, fss};
ghost use Rattle.cfdp_directives.specs.Pdu.Faults.{has_lv, after_lv, file_data_fault};
ghost use Rattle.cfdp_directives.specs.Pdu.Faults.{metadata_fault, eof_fault, finished_fault};
ghost use Rattle.cfdp_directives.specs.Pdu.Faults.{ack_fault, nak_fault, length_fault};
ghost use Rattle.cfdp_directives.specs.Pdu.Faults.{directive_fault, content_fault, pdu_fault};

use crate::pdu::codes::{
    Acknowledged, ChecksumKind, Condition, Delivery, FileStatus, TransactionStatus,
};
use crate::pdu::content::Pdu;
use crate::pdu::error::PduError;
use crate::pdu::file_size::{file_size_octets, read_file_size};
use crate::pdu::pairs::SegmentRequests;
use crate::pdu::tlv::Tlvs;
use cfd_bits::get;
use cfdp_header::{Header, PduType};

/// Returns the condition with this code, if it is one.
fn condition(code: u64) -> Result<Condition, PduError>
    requires { code < 16 }
    ensures found { IfOk result (λ c. c ≡ code) }
    ensures refused { result_err result
        ≡ (if is_refused code then Some errors.Condition else None) }
{
    match Condition::from_code(code as u8) {
        Some(condition) => Ok(condition),
        None => Err(PduError::Condition),
    }
}

/// Returns the text at the front, which follows an octet of its length, and what is after it.
#[tactic(auto, unfolding(crate::specs::Pdu::Faults::has_lv, crate::specs::Pdu::Faults::after_lv))]
fn split_lv(bytes: &[u8]) -> Option<(&[u8], &[u8])>
    ensures found { IfSome result (λ x. bytes.now ≡ lv x.0.now ++ x.1.now) }
    ensures rest { IfSome result (λ x. x.1.now ≡ after_lv bytes.now) }
    ensures none { is_some result ≡ has_lv bytes.now }
{
    let [len, rest @ ..] = bytes else {
        return None;
    };
    let len = *len as usize;
    if rest.len() < len {
        return None;
    }
    Some(rest.split_at(len))
}

#[tactic(auto, using(crate::proofs::Options::field_behind))]
fn file_data<'a>(header: &Header, body: &'a [u8]) -> Result<Pdu<'a>, PduError>
    requires { header.now.pdu_type ≡ types.FileData }
    ensures found { IfOk result (λ v. Says header.now (view v) body.now) }
    ensures refused { result_err result
        ≡ file_data_fault (fss header.now) header.now.segment_metadata body.now }
{
    let width = file_size_octets(header.large);
    let mut skipped = 0;
    if header.segment_metadata {
        if body.is_empty() {
            return Err(PduError::Truncated);
        }
        skipped = 1 + get(body, 2, 6) as usize;
    }
    if body.len() < skipped + width {
        return Err(PduError::Truncated);
    }
    let (_, offset) = body.split_at(skipped);
    let (_, bytes) = body.split_at(skipped + width);
    Ok(Pdu::FileData {
        offset: read_file_size(header.large, offset),
        bytes,
    })
}

#[tactic(auto, using(crate::proofs::Options::spelled_so, crate::proofs::Ranges::behind_two))]
fn metadata<'a>(header: &Header, body: &'a [u8]) -> Result<Pdu<'a>, PduError>
    requires kind { header.now.pdu_type ≡ types.FileDirective }
    requires code { field body.now 0 8 ≡ 7 }
    ensures found { IfOk result (λ v. Says header.now (view v) body.now) }
    ensures refused { result_err result ≡ metadata_fault (fss header.now) body.now }
{
    let width = file_size_octets(header.large);
    if body.len() < 2 + width {
        return Err(PduError::Truncated);
    }
    let (_, size) = body.split_at(2);
    let (_, texts) = body.split_at(2 + width);
    let Some((source, rest)) = split_lv(texts) else {
        return Err(PduError::Truncated);
    };
    let Some((destination, rest)) = split_lv(rest) else {
        return Err(PduError::Truncated);
    };
    let Some(options) = Tlvs::read(rest) else {
        return Err(PduError::Tlv);
    };
    Ok(Pdu::Metadata {
        checksum_kind: checksum_kind(get(body, 12, 4)),
        size: read_file_size(header.large, size),
        source,
        destination,
        options,
    })
}

/// Returns the checksum type with this code.
fn checksum_kind(code: u64) -> ChecksumKind
    requires { code < 16 }
    ensures { result ≡ code }
{
    ChecksumKind::from_code(code as u8).unwrap()
}

#[tactic(auto, using(crate::proofs::Options::spelled_so, crate::proofs::Ranges::behind_six))]
fn eof<'a>(header: &Header, body: &'a [u8]) -> Result<Pdu<'a>, PduError>
    requires kind { header.now.pdu_type ≡ types.FileDirective }
    requires code { field body.now 0 8 ≡ 4 }
    ensures found { IfOk result (λ v. Says header.now (view v) body.now) }
    ensures refused { result_err result ≡ eof_fault (fss header.now) body.now }
{
    let width = file_size_octets(header.large);
    if body.len() < 6 + width {
        return Err(PduError::Truncated);
    }
    let condition = condition(get(body, 8, 4))?;
    let (_, size) = body.split_at(6);
    let (_, behind) = body.split_at(6 + width);
    let Some(tlvs) = Tlvs::read(behind) else {
        return Err(PduError::Tlv);
    };
    Ok(Pdu::Eof {
        condition,
        checksum: get(body, 16, 32) as u32,
        size: read_file_size(header.large, size),
        tlvs,
    })
}

#[tactic(auto, using(crate::proofs::Options::spelled_so))]
fn finished<'a>(header: &Header, body: &'a [u8]) -> Result<Pdu<'a>, PduError>
    requires kind { header.now.pdu_type ≡ types.FileDirective }
    requires code { field body.now 0 8 ≡ 5 }
    ensures found { IfOk result (λ v. Says header.now (view v) body.now) }
    ensures refused { result_err result ≡ finished_fault body.now }
{
    if body.len() < 2 {
        return Err(PduError::Truncated);
    }
    let condition = condition(get(body, 8, 4))?;
    let (_, behind) = body.split_at(2);
    let Some(tlvs) = Tlvs::read(behind) else {
        return Err(PduError::Tlv);
    };
    let delivery = match get(body, 13, 1) {
        0 => Delivery::Complete,
        _ => Delivery::Incomplete,
    };
    let status = match get(body, 14, 2) {
        0 => FileStatus::Discarded,
        1 => FileStatus::Rejected,
        2 => FileStatus::Retained,
        _ => FileStatus::Unreported,
    };
    Ok(Pdu::Finished {
        condition,
        delivery,
        status,
        tlvs,
    })
}

fn ack<'a>(header: &Header, body: &'a [u8]) -> Result<Pdu<'a>, PduError>
    requires kind { header.now.pdu_type ≡ types.FileDirective }
    requires code { field body.now 0 8 ≡ 6 }
    ensures found { IfOk result (λ v. Says header.now (view v) body.now) }
    ensures refused { result_err result ≡ ack_fault body.now }
{
    if body.len() < 3 {
        return Err(PduError::Truncated);
    }
    let of = match get(body, 8, 4) {
        4 => Acknowledged::Eof,
        5 => Acknowledged::Finished,
        _ => return Err(PduError::Directive),
    };
    let condition = condition(get(body, 16, 4))?;
    if body.len() != 3 {
        return Err(PduError::Trailing);
    }
    let status = match get(body, 22, 2) {
        0 => TransactionStatus::Undefined,
        1 => TransactionStatus::Active,
        2 => TransactionStatus::Terminated,
        _ => TransactionStatus::Unrecognized,
    };
    Ok(Pdu::Ack {
        of,
        condition,
        status,
    })
}

#[tactic(auto, using(crate::proofs::Ranges::behind_one, crate::proofs::Ranges::scope_end))]
fn nak<'a>(header: &Header, body: &'a [u8]) -> Result<Pdu<'a>, PduError>
    requires kind { header.now.pdu_type ≡ types.FileDirective }
    requires code { field body.now 0 8 ≡ 8 }
    ensures found { IfOk result (λ v. Says header.now (view v) body.now) }
    ensures refused { result_err result ≡ nak_fault (fss header.now) body.now }
{
    let width = file_size_octets(header.large);
    if body.len() < 1 + 2 * width {
        return Err(PduError::Truncated);
    }
    let (_, start) = body.split_at(1);
    let (_, end) = body.split_at(1 + width);
    let (_, behind) = body.split_at(1 + 2 * width);
    let Some(requests) = SegmentRequests::read(header.large, behind) else {
        return Err(PduError::Truncated);
    };
    Ok(Pdu::Nak {
        start: read_file_size(header.large, start),
        end: read_file_size(header.large, end),
        requests,
    })
}

fn prompt<'a>(header: &Header, body: &'a [u8]) -> Result<Pdu<'a>, PduError>
    requires kind { header.now.pdu_type ≡ types.FileDirective }
    requires code { field body.now 0 8 ≡ 9 }
    ensures found { IfOk result (λ v. Says header.now (view v) body.now) }
    ensures refused { result_err result ≡ length_fault 2 body.now }
{
    if body.len() < 2 {
        return Err(PduError::Truncated);
    }
    if body.len() != 2 {
        return Err(PduError::Trailing);
    }
    Ok(Pdu::Prompt {
        keep_alive: get(body, 8, 1) == 1,
    })
}

#[tactic(auto, using(crate::proofs::Ranges::behind_one))]
fn keep_alive<'a>(header: &Header, body: &'a [u8]) -> Result<Pdu<'a>, PduError>
    requires kind { header.now.pdu_type ≡ types.FileDirective }
    requires code { field body.now 0 8 ≡ 12 }
    ensures found { IfOk result (λ v. Says header.now (view v) body.now) }
    ensures refused { result_err result ≡ length_fault (1 + fss header.now) body.now }
{
    let width = file_size_octets(header.large);
    if body.len() < 1 + width {
        return Err(PduError::Truncated);
    }
    if body.len() != 1 + width {
        return Err(PduError::Trailing);
    }
    let (_, progress) = body.split_at(1);
    Ok(Pdu::KeepAlive {
        progress: read_file_size(header.large, progress),
    })
}

fn directive<'a>(header: &Header, body: &'a [u8]) -> Result<Pdu<'a>, PduError>
    requires { header.now.pdu_type ≡ types.FileDirective }
    ensures found { IfOk result (λ v. Says header.now (view v) body.now) }
    ensures refused { result_err result ≡ directive_fault (fss header.now) body.now }
{
    if body.is_empty() {
        return Err(PduError::Truncated);
    }
    match get(body, 0, 8) {
        4 => eof(header, body),
        5 => finished(header, body),
        6 => ack(header, body),
        7 => metadata(header, body),
        8 => nak(header, body),
        9 => prompt(header, body),
        12 => keep_alive(header, body),
        _ => Err(PduError::Directive),
    }
}

fn content<'a>(header: &Header, body: &'a [u8]) -> Result<Pdu<'a>, PduError>
    ensures found { IfOk result (λ v. Says header.now (view v) body.now) }
    ensures refused { result_err result ≡ content_fault (fss header.now)
        (type_bit header.now.pdu_type) header.now.segment_metadata body.now }
{
    match header.pdu_type {
        PduType::FileData => file_data(header, body),
        PduType::FileDirective => directive(header, body),
    }
}

#[tactic(auto, using(crate::proofs::Only::behind_header))]
fn pdu(bytes: &[u8]) -> Result<(Header, Pdu<'_>), PduError>
    ensures found { IfOk result (λ x. SpellsPdu x.0 (view x.1) bytes.now) }
    ensures refused { result_err result ≡ pdu_fault bytes.now }
{
    let (header, body) = cfdp_header::decode(bytes)?;
    match content(&header, body) {
        Ok(pdu) => Ok((header, pdu)),
        Err(e) => Err(e),
    }
}

/// Returns the PDU that the octets are, all of them, and its header.
///
/// Any value of spare bits and of the subtype of an ACK is accepted. If the header says that there
/// is a CRC, the PDU is read as if it were not there.
///
/// # Errors
///
/// The first of these that holds. `Header` with the header's refusal. Then, of the data field:
/// `Truncated` if a field or the last range of a NAK passes its end, `Directive` if the directive
/// or what an ACK acknowledges isn't known, `Condition` if the condition is 12 or 13, `Tlv` if the
/// octets of options aren't whole options, and `Trailing` if octets are left over. A directive that
/// isn't known is `Directive` whatever follows.
pub fn decode(bytes: &[u8]) -> Result<(Header, Pdu<'_>), PduError>
    // What is answered is spelled so.
    ensures found { IfOk result (λ x. SpellsPdu x.0 (view x.1) bytes.now) }
    // What is spelled so is answered.
    ensures only { (h : Header) (v : Content) → SpellsPdu h v bytes.now
        → IsOkAnd result (λ x. (x.0 ≡ h) × (view x.1 ≡ v)) }
    // Which refusal it is.
    ensures refused { result_err result ≡ pdu_fault bytes.now }
{
    pdu(bytes)
}
