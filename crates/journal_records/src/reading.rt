//! Readers of records.
ghost use Rattle.std.specs.Prelude.{◌≡◌, List, IfOk, Ok};
ghost use Rattle.journal_records.specs.declared.record.JournalRecord.{JournalRecord};
ghost use Rattle.journal_records.specs.declared.record.RecordKind.TheVariants as kind;
ghost use Rattle.journal_records.specs.Reading.{Gives, body_at, many_at, record_at};
ghost use Rattle.journal_records.specs.Reading.{records_at, records_in};
ghost use Rattle.journal_records.specs.Writing.{AreRecords, records_octets};

use crate::fault::{BatchFault, ReadError};
use crate::fields::{
    addressing_at, checksum_kind_at, choice_at, condition_at, flag_at, id_at, name_at, optional_at,
    outcome_at, ranges_at, transfer_at, u32_at, u64_at,
};
use crate::record::{JournalRecord, Owner, RecordKind};
use cfdp_receiver::{Ending, FileInfo};
use std::alloc::Global;

const KINDS: [RecordKind; 16] = [
    RecordKind::Station,
    RecordKind::Put,
    RecordKind::Sent,
    RecordKind::EofTaken,
    RecordKind::Cancelling,
    RecordKind::Opened,
    RecordKind::HeardMetadata,
    RecordKind::HeardEof,
    RecordKind::Held,
    RecordKind::Publishing,
    RecordKind::Finishing,
    RecordKind::Closed,
    RecordKind::Suspended,
    RecordKind::PendingFinished,
    RecordKind::PendingAbandoned,
    RecordKind::Forgotten,
];

#[tactic(auto, unfolding(crate::specs::Reading::body_at))]
fn station_at(bytes: &[u8]) -> Result<(JournalRecord, &[u8]), ReadError>
    ensures { Gives (λ x. (x.0, x.1.now)) result (body_at kind.Station bytes.now) }
{
    let (entity, rest) = u64_at(bytes)?;
    let (peer, rest) = u64_at(rest)?;
    let (start, rest) = u64_at(rest)?;
    let owner = Owner {
        entity,
        peer,
        start,
    };
    Ok((JournalRecord::Station(owner), rest))
}

#[tactic(auto, unfolding(crate::specs::Reading::body_at))]
fn put_at(alloc: Global, bytes: &[u8]) -> Result<(JournalRecord, &[u8]), ReadError>
    ensures { Gives (λ x. (x.0, x.1.now)) result (body_at kind.Put bytes.now) }
{
    let (transfer, rest) = transfer_at(alloc, bytes)?;
    Ok((JournalRecord::Put(transfer), rest))
}

#[tactic(auto, unfolding(crate::specs::Reading::body_at))]
fn sent_at(bytes: &[u8]) -> Result<(JournalRecord, &[u8]), ReadError>
    ensures { Gives (λ x. (x.0, x.1.now)) result (body_at kind.Sent bytes.now) }
{
    let (id, rest) = id_at(bytes)?;
    let (sent, rest) = u64_at(rest)?;
    Ok((JournalRecord::Sent(id, sent), rest))
}

#[tactic(auto, unfolding(crate::specs::Reading::body_at))]
fn eof_taken_at(bytes: &[u8]) -> Result<(JournalRecord, &[u8]), ReadError>
    ensures { Gives (λ x. (x.0, x.1.now)) result (body_at kind.EofTaken bytes.now) }
{
    let (id, rest) = id_at(bytes)?;
    Ok((JournalRecord::EofTaken(id), rest))
}

#[tactic(auto, unfolding(crate::specs::Reading::body_at))]
fn cancelling_at(bytes: &[u8]) -> Result<(JournalRecord, &[u8]), ReadError>
    ensures { Gives (λ x. (x.0, x.1.now)) result (body_at kind.Cancelling bytes.now) }
{
    let (id, rest) = id_at(bytes)?;
    match condition_at(rest) {
        Ok((condition, rest)) => Ok((JournalRecord::Cancelling(id, condition), rest)),
        Err(error) => Err(error),
    }
}

#[tactic(auto, unfolding(crate::specs::Reading::body_at))]
fn opened_at(bytes: &[u8]) -> Result<(JournalRecord, &[u8]), ReadError>
    ensures { Gives (λ x. (x.0, x.1.now)) result (body_at kind.Opened bytes.now) }
{
    let (addressing, rest) = addressing_at(bytes)?;
    let (large, rest) = flag_at(rest)?;
    Ok((JournalRecord::Opened(addressing, large), rest))
}

#[tactic(auto, unfolding(crate::specs::Reading::body_at))]
fn heard_metadata_at(alloc: Global, bytes: &[u8]) -> Result<(JournalRecord, &[u8]), ReadError>
    ensures { Gives (λ x. (x.0, x.1.now)) result (body_at kind.HeardMetadata bytes.now) }
{
    let (id, rest) = id_at(bytes)?;
    match checksum_kind_at(rest) {
        Ok((checksum_kind, rest)) => {
            let (destination, rest) = name_at(alloc, rest)?;
            let info = FileInfo {
                checksum_kind,
                destination,
            };
            Ok((JournalRecord::HeardMetadata(id, info), rest))
        }
        Err(error) => Err(error),
    }
}

#[tactic(auto, unfolding(crate::specs::Reading::body_at))]
fn heard_eof_at(bytes: &[u8]) -> Result<(JournalRecord, &[u8]), ReadError>
    ensures { Gives (λ x. (x.0, x.1.now)) result (body_at kind.HeardEof bytes.now) }
{
    let (id, rest) = id_at(bytes)?;
    let (checksum, rest) = u32_at(rest)?;
    let (size, rest) = u64_at(rest)?;
    Ok((JournalRecord::HeardEof(id, Ending { checksum, size }), rest))
}

#[tactic(auto, unfolding(crate::specs::Reading::body_at))]
fn held_at(alloc: Global, bytes: &[u8]) -> Result<(JournalRecord, &[u8]), ReadError>
    ensures { Gives (λ x. (x.0, x.1.now)) result (body_at kind.Held bytes.now) }
{
    let (id, rest) = id_at(bytes)?;
    let (large, rest) = flag_at(rest)?;
    let (ranges, rest) = ranges_at(alloc, rest)?;
    Ok((JournalRecord::Held(id, large, ranges), rest))
}

#[tactic(auto, unfolding(crate::specs::Reading::body_at))]
fn publishing_at(alloc: Global, bytes: &[u8]) -> Result<(JournalRecord, &[u8]), ReadError>
    ensures { Gives (λ x. (x.0, x.1.now)) result (body_at kind.Publishing bytes.now) }
{
    let (id, rest) = id_at(bytes)?;
    let (name, rest) = name_at(alloc, rest)?;
    let (size, rest) = u64_at(rest)?;
    Ok((JournalRecord::Publishing(id, name, size), rest))
}

#[tactic(auto, unfolding(crate::specs::Reading::body_at))]
fn finishing_at(bytes: &[u8]) -> Result<(JournalRecord, &[u8]), ReadError>
    ensures { Gives (λ x. (x.0, x.1.now)) result (body_at kind.Finishing bytes.now) }
{
    let (id, rest) = id_at(bytes)?;
    match outcome_at(rest) {
        Ok((outcome, rest)) => Ok((JournalRecord::Finishing(id, outcome), rest)),
        Err(error) => Err(error),
    }
}

#[tactic(auto, unfolding(crate::specs::Reading::body_at))]
fn closed_at(bytes: &[u8]) -> Result<(JournalRecord, &[u8]), ReadError>
    ensures { Gives (λ x. (x.0, x.1.now)) result (body_at kind.Closed bytes.now) }
{
    let (id, rest) = id_at(bytes)?;
    match optional_at(rest) {
        Ok((outcome, rest)) => Ok((JournalRecord::Closed(id, outcome), rest)),
        Err(error) => Err(error),
    }
}

#[tactic(auto, unfolding(crate::specs::Reading::body_at))]
fn suspended_at(bytes: &[u8]) -> Result<(JournalRecord, &[u8]), ReadError>
    ensures { Gives (λ x. (x.0, x.1.now)) result (body_at kind.Suspended bytes.now) }
{
    let (id, rest) = id_at(bytes)?;
    let (is_suspended, rest) = flag_at(rest)?;
    Ok((JournalRecord::Suspended(id, is_suspended), rest))
}

#[tactic(auto, unfolding(crate::specs::Reading::body_at))]
fn pending_finished_at(bytes: &[u8]) -> Result<(JournalRecord, &[u8]), ReadError>
    ensures { Gives (λ x. (x.0, x.1.now)) result (body_at kind.PendingFinished bytes.now) }
{
    let (id, rest) = id_at(bytes)?;
    match outcome_at(rest) {
        Ok((outcome, rest)) => Ok((JournalRecord::PendingFinished(id, outcome), rest)),
        Err(error) => Err(error),
    }
}

#[tactic(auto, unfolding(crate::specs::Reading::body_at))]
fn pending_abandoned_at(bytes: &[u8]) -> Result<(JournalRecord, &[u8]), ReadError>
    ensures { Gives (λ x. (x.0, x.1.now)) result (body_at kind.PendingAbandoned bytes.now) }
{
    let (id, rest) = id_at(bytes)?;
    match condition_at(rest) {
        Ok((condition, rest)) => Ok((JournalRecord::PendingAbandoned(id, condition), rest)),
        Err(error) => Err(error),
    }
}

#[tactic(auto, unfolding(crate::specs::Reading::body_at))]
fn forgotten_at(alloc: Global, bytes: &[u8]) -> Result<(JournalRecord, &[u8]), ReadError>
    ensures { Gives (λ x. (x.0, x.1.now)) result (body_at kind.Forgotten bytes.now) }
{
    let (source, rest) = u64_at(bytes)?;
    let (ranges, rest) = ranges_at(alloc, rest)?;
    Ok((JournalRecord::Forgotten(source, ranges), rest))
}

fn body_at(
    alloc: Global,
    kind: RecordKind,
    bytes: &[u8],
) -> Result<(JournalRecord, &[u8]), ReadError>
    ensures { Gives (λ x. (x.0, x.1.now)) result (body_at kind bytes.now) }
{
    match kind {
        RecordKind::Station => station_at(bytes),
        RecordKind::Put => put_at(alloc, bytes),
        RecordKind::Sent => sent_at(bytes),
        RecordKind::EofTaken => eof_taken_at(bytes),
        RecordKind::Cancelling => cancelling_at(bytes),
        RecordKind::Opened => opened_at(bytes),
        RecordKind::HeardMetadata => heard_metadata_at(alloc, bytes),
        RecordKind::HeardEof => heard_eof_at(bytes),
        RecordKind::Held => held_at(alloc, bytes),
        RecordKind::Publishing => publishing_at(alloc, bytes),
        RecordKind::Finishing => finishing_at(bytes),
        RecordKind::Closed => closed_at(bytes),
        RecordKind::Suspended => suspended_at(bytes),
        RecordKind::PendingFinished => pending_finished_at(bytes),
        RecordKind::PendingAbandoned => pending_abandoned_at(bytes),
        RecordKind::Forgotten => forgotten_at(alloc, bytes),
    }
}

#[tactic(auto, unfolding(crate::specs::Reading::record_at))]
fn record_at(alloc: Global, bytes: &[u8]) -> Result<(JournalRecord, &[u8]), ReadError>
    ensures { Gives (λ x. (x.0, x.1.now)) result (record_at bytes.now) }
{
    let (kind, rest) = choice_at(&KINDS, bytes)?;
    body_at(alloc, kind, rest)
}

fn many_records_at(
    alloc: Global,
    count: u64,
    bytes: &[u8],
) -> Result<(Vec<JournalRecord>, &[u8]), ReadError>
    ensures { Gives (λ x. (x.0.items, x.1.now)) result (many_at record_at count bytes.now) }
{
    let mut records = Vec::new(alloc);
    let mut rest = bytes;
    for _ in 0..count {
        let (record, after) = record_at(alloc, rest)?;
        records.push(record)?;
        rest = after;
    }
    Ok((records, rest))
}

#[tactic(auto, unfolding(crate::specs::Reading::records_at))]
fn records_at(alloc: Global, bytes: &[u8]) -> Result<(Vec<JournalRecord>, &[u8]), ReadError>
    ensures { Gives (λ x. (x.0.items, x.1.now)) result (records_at bytes.now) }
{
    let (count, rest) = u64_at(bytes)?;
    many_records_at(alloc, count, rest)
}

#[tactic(auto, unfolding(crate::specs::Reading::records_in))]
fn records_in(alloc: Global, bytes: &[u8]) -> Result<Vec<JournalRecord>, ReadError>
    ensures { Gives (λ v. v.items) result (records_in bytes.now) }
{
    let (records, rest) = records_at(alloc, bytes)?;
    if !rest.is_empty() {
        return Err(ReadError::Fault(BatchFault::Trailing));
    }
    Ok(records)
}

/// Returns the records that the text of a batch spells, all of the text.
///
/// # Errors
///
/// `BatchFault` with the first fault from the front; `Memory` if memory runs out.
pub fn read_records(alloc: Global, bytes: &[u8]) -> Result<Vec<JournalRecord>, ReadError>
    ensures found { IfOk result (λ v. AreRecords v.items
        × (bytes.now ≡ records_octets v.items)) }
    ensures only { (rs : List JournalRecord) → AreRecords rs → bytes.now ≡ records_octets rs
        → Gives (λ v. v.items) result (Ok rs) }
    ensures refused { Gives (λ v. v.items) result (records_in bytes.now) }
{
    records_in(alloc, bytes)
}
