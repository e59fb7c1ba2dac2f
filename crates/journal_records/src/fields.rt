//! Readers of fields: each returns what stands at the front of octets, and the octets after it.
ghost use Rattle.std.specs.Prelude.{◌≡◌, List};
ghost use Rattle.std.specs.Int.{w16, w32, w64};
ghost use Rattle.journal_records.specs.Reading.{Gives, addressing_at, choice_at, flags, id_at};
ghost use Rattle.journal_records.specs.Reading.{is_checksum_kind, is_condition, many_at, name_at};
ghost use Rattle.journal_records.specs.Reading.{number_at, octet_at, optional_at, outcome_at};
ghost use Rattle.journal_records.specs.Reading.{range_at, ranges_at, tested_at, transfer_at};

use crate::fault::{BatchFault, ReadError};
use crate::ranges::RangeList;
use cfdp_directives::{Addressing, ChecksumKind, Condition, Delivery, FileStatus, Octets, Outcome};
use cfdp_header::TransactionId;
use cfdp_sender::Transfer;
use std::alloc::Global;

const FLAGS: [bool; 2] = [false, true];

const DELIVERIES: [Delivery; 2] = [Delivery::Complete, Delivery::Incomplete];

const STATUSES: [FileStatus; 4] = [
    FileStatus::Discarded,
    FileStatus::Rejected,
    FileStatus::Retained,
    FileStatus::Unreported,
];

#[tactic(auto, unfolding(crate::specs::Reading::octet_at))]
fn octet_at(bytes: &[u8]) -> Result<(u8, &[u8]), ReadError>
    ensures { Gives (λ x. (x.0, x.1.now)) result (octet_at bytes.now) }
{
    match bytes {
        [] => Err(ReadError::Fault(BatchFault::Short)),
        [octet, rest @ ..] => Ok((*octet, rest)),
    }
}

#[tactic(auto, unfolding(crate::specs::Reading::number_at))]
fn u16_at(bytes: &[u8]) -> Result<(u16, &[u8]), ReadError>
    ensures { Gives (λ x. (x.0, x.1.now)) result (number_at w16 bytes.now) }
{
    if bytes.len() < 2 {
        return Err(ReadError::Fault(BatchFault::Short));
    }
    let (front, rest) = bytes.split_at(2);
    let number = u16::from_be_bytes([front[0], front[1]]);
    Ok((number, rest))
}

#[tactic(auto, unfolding(crate::specs::Reading::number_at))]
pub fn u32_at(bytes: &[u8]) -> Result<(u32, &[u8]), ReadError>
    ensures { Gives (λ x. (x.0, x.1.now)) result (number_at w32 bytes.now) }
{
    if bytes.len() < 4 {
        return Err(ReadError::Fault(BatchFault::Short));
    }
    let (front, rest) = bytes.split_at(4);
    let number = u32::from_be_bytes([front[0], front[1], front[2], front[3]]);
    Ok((number, rest))
}

#[tactic(auto, unfolding(crate::specs::Reading::number_at))]
pub fn u64_at(bytes: &[u8]) -> Result<(u64, &[u8]), ReadError>
    ensures { Gives (λ x. (x.0, x.1.now)) result (number_at w64 bytes.now) }
{
    if bytes.len() < 8 {
        return Err(ReadError::Fault(BatchFault::Short));
    }
    let (front, rest) = bytes.split_at(8);
    let number = u64::from_be_bytes([
        front[0], front[1], front[2], front[3], front[4], front[5], front[6], front[7],
    ]);
    Ok((number, rest))
}

/// Reads one of these values, whose code is its index.
#[tactic(auto, unfolding(crate::specs::Reading::choice_at))]
pub fn choice_at<'a, T: Copy>(all: &[T], bytes: &'a [u8]) -> Result<(T, &'a [u8]), ReadError>
    ensures { Gives (λ x. (x.0, x.1.now)) result (choice_at all.now bytes.now) }
{
    let (code, rest) = octet_at(bytes)?;
    match all.get(usize::from(code)) {
        Some(choice) => Ok((*choice, rest)),
        None => Err(ReadError::Fault(BatchFault::Unknown)),
    }
}

pub fn flag_at(bytes: &[u8]) -> Result<(bool, &[u8]), ReadError>
    ensures { Gives (λ x. (x.0, x.1.now)) result (choice_at flags bytes.now) }
{
    choice_at(&FLAGS, bytes)
}

#[tactic(auto, unfolding(crate::specs::Reading::id_at))]
pub fn id_at(bytes: &[u8]) -> Result<(TransactionId, &[u8]), ReadError>
    ensures { Gives (λ x. (x.0, x.1.now)) result (id_at bytes.now) }
{
    let (source, rest) = u64_at(bytes)?;
    let (number, rest) = u64_at(rest)?;
    Ok((TransactionId { source, number }, rest))
}

#[tactic(auto, unfolding(crate::specs::Reading::name_at))]
pub fn name_at(alloc: Global, bytes: &[u8]) -> Result<(Octets, &[u8]), ReadError>
    ensures { Gives (λ x. (x.0, x.1.now)) result (name_at bytes.now) }
{
    let (len, rest) = u64_at(bytes)?;
    let len = len as usize;
    if rest.len() < len {
        return Err(ReadError::Fault(BatchFault::Short));
    }
    let (name, rest) = rest.split_at(len);
    Ok((Octets::copied(alloc, name)?, rest))
}

#[tactic(auto, unfolding(crate::specs::Reading::range_at))]
fn range_at(bytes: &[u8]) -> Result<((u64, u64), &[u8]), ReadError>
    ensures { Gives (λ x. (x.0, x.1.now)) result (range_at bytes.now) }
{
    let (start, rest) = u64_at(bytes)?;
    let (end, rest) = u64_at(rest)?;
    Ok(((start, end), rest))
}

fn many_ranges_at(
    alloc: Global,
    count: u64,
    bytes: &[u8],
) -> Result<(Vec<(u64, u64)>, &[u8]), ReadError>
    ensures { Gives (λ x. (x.0.items, x.1.now)) result (many_at range_at count bytes.now) }
{
    let mut ranges = Vec::new(alloc);
    let mut rest = bytes;
    for _ in 0..count {
        let (range, after) = range_at(rest)?;
        ranges.push(range)?;
        rest = after;
    }
    Ok((ranges, rest))
}

#[tactic(auto, unfolding(crate::specs::Reading::ranges_at))]
pub fn ranges_at(alloc: Global, bytes: &[u8]) -> Result<(RangeList, &[u8]), ReadError>
    ensures { Gives (λ x. (x.0, x.1.now)) result (ranges_at bytes.now) }
{
    let (count, rest) = u64_at(bytes)?;
    let (ranges, rest) = many_ranges_at(alloc, count, rest)?;
    Ok((RangeList::from_vec(ranges), rest))
}

#[tactic(auto, unfolding(crate::specs::Reading::addressing_at))]
pub fn addressing_at(bytes: &[u8]) -> Result<(Addressing, &[u8]), ReadError>
    ensures { Gives (λ x. (x.0, x.1.now)) result (addressing_at bytes.now) }
{
    let (id, rest) = id_at(bytes)?;
    let (destination, rest) = u64_at(rest)?;
    let (id_width, rest) = octet_at(rest)?;
    let (number_width, rest) = octet_at(rest)?;
    let (crc, rest) = flag_at(rest)?;
    let addressing = Addressing {
        id,
        destination,
        id_width,
        number_width,
        crc,
    };
    Ok((addressing, rest))
}

#[tactic(auto, unfolding(crate::specs::Reading::tested_at))]
pub fn condition_at(bytes: &[u8]) -> Result<(Condition, &[u8]), ReadError>
    ensures { Gives (λ x. (x.0, x.1.now)) result (tested_at is_condition bytes.now) }
{
    let (code, rest) = octet_at(bytes)?;
    match Condition::from_code(code) {
        Some(condition) => Ok((condition, rest)),
        None => Err(ReadError::Fault(BatchFault::Unknown)),
    }
}

#[tactic(auto, unfolding(crate::specs::Reading::tested_at))]
pub fn checksum_kind_at(bytes: &[u8]) -> Result<(ChecksumKind, &[u8]), ReadError>
    ensures { Gives (λ x. (x.0, x.1.now)) result (tested_at is_checksum_kind bytes.now) }
{
    let (code, rest) = octet_at(bytes)?;
    match ChecksumKind::from_code(code) {
        Some(kind) => Ok((kind, rest)),
        None => Err(ReadError::Fault(BatchFault::Unknown)),
    }
}

#[tactic(auto, unfolding(crate::specs::Reading::outcome_at))]
pub fn outcome_at(bytes: &[u8]) -> Result<(Outcome, &[u8]), ReadError>
    ensures { Gives (λ x. (x.0, x.1.now)) result (outcome_at bytes.now) }
{
    match condition_at(bytes) {
        Ok((condition, rest)) => {
            let (delivery, rest) = choice_at(&DELIVERIES, rest)?;
            let (status, rest) = choice_at(&STATUSES, rest)?;
            let outcome = Outcome {
                condition,
                delivery,
                status,
            };
            Ok((outcome, rest))
        }
        Err(error) => Err(error),
    }
}

#[tactic(auto, unfolding(crate::specs::Reading::optional_at))]
pub fn optional_at(bytes: &[u8]) -> Result<(Option<Outcome>, &[u8]), ReadError>
    ensures { Gives (λ x. (x.0, x.1.now)) result (optional_at bytes.now) }
{
    let (is_there, rest) = flag_at(bytes)?;
    if !is_there {
        return Ok((None, rest));
    }
    match outcome_at(rest) {
        Ok((outcome, rest)) => Ok((Some(outcome), rest)),
        Err(error) => Err(error),
    }
}

#[tactic(auto, unfolding(crate::specs::Reading::transfer_at))]
pub fn transfer_at(alloc: Global, bytes: &[u8]) -> Result<(Transfer, &[u8]), ReadError>
    ensures { Gives (λ x. (x.0, x.1.now)) result (transfer_at bytes.now) }
{
    let (addressing, rest) = addressing_at(bytes)?;
    match checksum_kind_at(rest) {
        Ok((checksum_kind, rest)) => {
            let (segment, rest) = u16_at(rest)?;
            let (source, rest) = name_at(alloc, rest)?;
            let (destination, rest) = name_at(alloc, rest)?;
            let (size, rest) = u64_at(rest)?;
            let transfer = Transfer {
                addressing,
                checksum_kind,
                segment,
                source,
                destination,
                size,
            };
            Ok((transfer, rest))
        }
        Err(error) => Err(error),
    }
}
