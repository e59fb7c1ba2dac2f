//! Writers of records.
ghost use Rattle.std.specs.Prelude.{◌≡◌, ◌++◌, OnOk, IfOk};
ghost use Rattle.std.specs.Int.{w16, w32, w64, to_be_bytes};
ghost use Rattle.journal_records.specs.declared.record.JournalRecord.TheVariants.{Closed};
ghost use Rattle.journal_records.specs.declared.record.JournalRecord.TheVariants.{Forgotten};
ghost use Rattle.journal_records.specs.declared.record.JournalRecord.TheVariants.{HeardEof, Held};
ghost use Rattle.journal_records.specs.declared.record.JournalRecord.TheVariants.{HeardMetadata};
ghost use Rattle.journal_records.specs.declared.record.JournalRecord.TheVariants.{Sent, Station};
ghost use Rattle.journal_records.specs.declared.record.JournalRecord.TheVariants.{Suspended};
ghost use Rattle.journal_records.specs.Writing.{addressing_octets, body_octets, flag_octets};
ghost use Rattle.journal_records.specs.Writing.{id_octets, kind_code, kind_of, name_octets};
ghost use Rattle.journal_records.specs.Writing.{octet, optional_octets, range_octets};
ghost use Rattle.journal_records.specs.Writing.{outcome_octets, ranges_octets, record_octets};
ghost use Rattle.journal_records.specs.Writing.{records_octets, transfer_octets};

use crate::record::{JournalRecord, Owner, RecordKind};
use cfdp_directives::{Addressing, Condition, Outcome};
use cfdp_header::TransactionId;
use cfdp_receiver::{Ending, FileInfo};
use cfdp_sender::Transfer;
use std::alloc::{AllocError, Global};

impl JournalRecord {
    /// Returns what kind of record it is.
    fn kind(&self) -> RecordKind
        ensures { result ≡ kind_of self.now }
    {
        match self {
            JournalRecord::Station(_) => RecordKind::Station,
            JournalRecord::Put(_) => RecordKind::Put,
            JournalRecord::Sent(..) => RecordKind::Sent,
            JournalRecord::EofTaken(_) => RecordKind::EofTaken,
            JournalRecord::Cancelling(..) => RecordKind::Cancelling,
            JournalRecord::Opened(..) => RecordKind::Opened,
            JournalRecord::HeardMetadata(..) => RecordKind::HeardMetadata,
            JournalRecord::HeardEof(..) => RecordKind::HeardEof,
            JournalRecord::Held(..) => RecordKind::Held,
            JournalRecord::Publishing(..) => RecordKind::Publishing,
            JournalRecord::Finishing(..) => RecordKind::Finishing,
            JournalRecord::Closed(..) => RecordKind::Closed,
            JournalRecord::Suspended(..) => RecordKind::Suspended,
            JournalRecord::PendingFinished(..) => RecordKind::PendingFinished,
            JournalRecord::PendingAbandoned(..) => RecordKind::PendingAbandoned,
            JournalRecord::Forgotten(..) => RecordKind::Forgotten,
        }
    }
}

impl RecordKind {
    /// Returns the octet that spells it.
    fn code(self) -> u8
        ensures { result ≡ kind_code self }
    {
        match self {
            RecordKind::Station => 0,
            RecordKind::Put => 1,
            RecordKind::Sent => 2,
            RecordKind::EofTaken => 3,
            RecordKind::Cancelling => 4,
            RecordKind::Opened => 5,
            RecordKind::HeardMetadata => 6,
            RecordKind::HeardEof => 7,
            RecordKind::Held => 8,
            RecordKind::Publishing => 9,
            RecordKind::Finishing => 10,
            RecordKind::Closed => 11,
            RecordKind::Suspended => 12,
            RecordKind::PendingFinished => 13,
            RecordKind::PendingAbandoned => 14,
            RecordKind::Forgotten => 15,
        }
    }
}

fn push_number(out: &mut Vec<u8>, number: u64) -> Result<(), AllocError>
    ensures { OnOk result (out.new.items ≡ out.old.items ++ to_be_bytes w64 number) }
{
    out.extend_from_slice(&number.to_be_bytes())
}

fn push_u32(out: &mut Vec<u8>, number: u32) -> Result<(), AllocError>
    ensures { OnOk result (out.new.items ≡ out.old.items ++ to_be_bytes w32 number) }
{
    out.extend_from_slice(&number.to_be_bytes())
}

fn push_u16(out: &mut Vec<u8>, number: u16) -> Result<(), AllocError>
    ensures { OnOk result (out.new.items ≡ out.old.items ++ to_be_bytes w16 number) }
{
    out.extend_from_slice(&number.to_be_bytes())
}

fn push_octet(out: &mut Vec<u8>, number: u8) -> Result<(), AllocError>
    ensures { OnOk result (out.new.items ≡ out.old.items ++ octet number) }
{
    out.extend_from_slice(&[number])
}

fn push_flag(out: &mut Vec<u8>, flag: bool) -> Result<(), AllocError>
    ensures { OnOk result (out.new.items ≡ out.old.items ++ flag_octets flag) }
{
    out.extend_from_slice(&[u8::from(flag)])
}

fn push_id(out: &mut Vec<u8>, id: TransactionId) -> Result<(), AllocError>
    ensures { OnOk result (out.new.items ≡ out.old.items ++ id_octets id) }
{
    push_number(out, id.source)?;
    push_number(out, id.number)
}

fn push_name(out: &mut Vec<u8>, name: &[u8]) -> Result<(), AllocError>
    ensures { OnOk result (out.new.items ≡ out.old.items ++ name_octets name.now) }
{
    push_number(out, name.len() as u64)?;
    out.extend_from_slice(name)
}

fn push_range(out: &mut Vec<u8>, range: (u64, u64)) -> Result<(), AllocError>
    ensures { OnOk result (out.new.items ≡ out.old.items ++ range_octets range) }
{
    push_number(out, range.0)?;
    push_number(out, range.1)
}

fn push_ranges(out: &mut Vec<u8>, ranges: &[(u64, u64)]) -> Result<(), AllocError>
    ensures { OnOk result (out.new.items ≡ out.old.items ++ ranges_octets ranges.now) }
{
    push_number(out, ranges.len() as u64)?;
    for range in ranges {
        push_range(out, *range)?;
    }
    Ok(())
}

fn push_addressing(out: &mut Vec<u8>, addressing: Addressing) -> Result<(), AllocError>
    ensures { OnOk result (out.new.items ≡ out.old.items ++ addressing_octets addressing) }
{
    push_id(out, addressing.id)?;
    push_number(out, addressing.destination)?;
    out.extend_from_slice(&[addressing.id_width, addressing.number_width])?;
    push_flag(out, addressing.crc)
}

fn push_outcome(out: &mut Vec<u8>, outcome: Outcome) -> Result<(), AllocError>
    ensures { OnOk result (out.new.items ≡ out.old.items ++ outcome_octets outcome) }
{
    out.extend_from_slice(&[
        outcome.condition.code(),
        outcome.delivery.code(),
        outcome.status.code(),
    ])
}

fn push_optional(out: &mut Vec<u8>, outcome: Option<Outcome>) -> Result<(), AllocError>
    ensures { OnOk result (out.new.items ≡ out.old.items ++ optional_octets outcome) }
{
    match outcome {
        None => push_flag(out, false),
        Some(outcome) => {
            push_flag(out, true)?;
            push_outcome(out, outcome)
        }
    }
}

fn push_transfer(out: &mut Vec<u8>, transfer: &Transfer) -> Result<(), AllocError>
    ensures { OnOk result (out.new.items ≡ out.old.items ++ transfer_octets transfer.now) }
{
    push_addressing(out, transfer.addressing)?;
    push_octet(out, transfer.checksum_kind.code())?;
    push_u16(out, transfer.segment)?;
    push_name(out, transfer.source.as_slice())?;
    push_name(out, transfer.destination.as_slice())?;
    push_number(out, transfer.size)
}

fn push_station(out: &mut Vec<u8>, owner: &Owner) -> Result<(), AllocError>
    ensures { OnOk result (out.new.items ≡ out.old.items ++ body_octets (Station owner.now)) }
{
    push_number(out, owner.entity)?;
    push_number(out, owner.peer)?;
    push_number(out, owner.start)
}

fn push_condition(
    out: &mut Vec<u8>,
    id: TransactionId,
    condition: Condition,
) -> Result<(), AllocError>
    ensures { OnOk result (out.new.items ≡ out.old.items ++ (id_octets id ++ octet condition)) }
{
    push_id(out, id)?;
    push_octet(out, condition.code())
}

fn push_opened(out: &mut Vec<u8>, addressing: Addressing, large: bool) -> Result<(), AllocError>
    ensures { OnOk result (out.new.items
        ≡ out.old.items ++ (addressing_octets addressing ++ flag_octets large)) }
{
    push_addressing(out, addressing)?;
    push_flag(out, large)
}

fn push_info(out: &mut Vec<u8>, id: TransactionId, info: &FileInfo) -> Result<(), AllocError>
    ensures { OnOk result (out.new.items
        ≡ out.old.items ++ body_octets (HeardMetadata id info.now)) }
{
    push_id(out, id)?;
    push_octet(out, info.checksum_kind.code())?;
    push_name(out, info.destination.as_slice())
}

fn push_ending(out: &mut Vec<u8>, id: TransactionId, ending: Ending) -> Result<(), AllocError>
    ensures { OnOk result (out.new.items ≡ out.old.items ++ body_octets (HeardEof id ending)) }
{
    push_id(out, id)?;
    push_u32(out, ending.checksum)?;
    push_number(out, ending.size)
}

fn push_held(
    out: &mut Vec<u8>,
    id: TransactionId,
    large: bool,
    ranges: &[(u64, u64)],
) -> Result<(), AllocError>
    ensures { OnOk result (out.new.items
        ≡ out.old.items ++ body_octets (Held id large ranges.now)) }
{
    push_id(out, id)?;
    push_flag(out, large)?;
    push_ranges(out, ranges)
}

fn push_end(out: &mut Vec<u8>, id: TransactionId, outcome: Outcome) -> Result<(), AllocError>
    ensures { OnOk result (out.new.items
        ≡ out.old.items ++ (id_octets id ++ outcome_octets outcome)) }
{
    push_id(out, id)?;
    push_outcome(out, outcome)
}

fn push_closed(
    out: &mut Vec<u8>,
    id: TransactionId,
    outcome: Option<Outcome>,
) -> Result<(), AllocError>
    ensures { OnOk result (out.new.items ≡ out.old.items ++ body_octets (Closed id outcome)) }
{
    push_id(out, id)?;
    push_optional(out, outcome)
}

fn push_file(out: &mut Vec<u8>, id: TransactionId, name: &[u8], size: u64) -> Result<(), AllocError>
    ensures { OnOk result (out.new.items
        ≡ out.old.items ++ (id_octets id ++ name_octets name.now ++ to_be_bytes w64 size)) }
{
    push_id(out, id)?;
    push_name(out, name)?;
    push_number(out, size)
}

fn push_sent(out: &mut Vec<u8>, id: TransactionId, sent: u64) -> Result<(), AllocError>
    ensures { OnOk result (out.new.items ≡ out.old.items ++ body_octets (Sent id sent)) }
{
    push_id(out, id)?;
    push_number(out, sent)
}

fn push_suspended(out: &mut Vec<u8>, id: TransactionId, is: bool) -> Result<(), AllocError>
    ensures { OnOk result (out.new.items ≡ out.old.items ++ body_octets (Suspended id is)) }
{
    push_id(out, id)?;
    push_flag(out, is)
}

fn push_forgotten(out: &mut Vec<u8>, source: u64, ranges: &[(u64, u64)]) -> Result<(), AllocError>
    ensures { OnOk result (out.new.items
        ≡ out.old.items ++ body_octets (Forgotten source ranges.now)) }
{
    push_number(out, source)?;
    push_ranges(out, ranges)
}

/// Appends what follows the kind of a record.
fn push_body(out: &mut Vec<u8>, record: &JournalRecord) -> Result<(), AllocError>
    ensures { OnOk result (out.new.items ≡ out.old.items ++ body_octets «record».now) }
{
    match record {
        JournalRecord::Station(owner) => push_station(out, owner),
        JournalRecord::Put(transfer) => push_transfer(out, transfer),
        JournalRecord::Sent(id, sent) => push_sent(out, *id, *sent),
        JournalRecord::EofTaken(id) => push_id(out, *id),
        JournalRecord::Cancelling(id, condition) => push_condition(out, *id, *condition),
        JournalRecord::Opened(addressing, large) => push_opened(out, *addressing, *large),
        JournalRecord::HeardMetadata(id, info) => push_info(out, *id, info),
        JournalRecord::HeardEof(id, ending) => push_ending(out, *id, *ending),
        JournalRecord::Held(id, large, ranges) => push_held(out, *id, *large, ranges.as_slice()),
        JournalRecord::Publishing(id, name, size) => push_file(out, *id, name.as_slice(), *size),
        JournalRecord::Finishing(id, outcome) => push_end(out, *id, *outcome),
        JournalRecord::Closed(id, outcome) => push_closed(out, *id, *outcome),
        JournalRecord::Suspended(id, is) => push_suspended(out, *id, *is),
        JournalRecord::PendingFinished(id, outcome) => push_end(out, *id, *outcome),
        JournalRecord::PendingAbandoned(id, condition) => push_condition(out, *id, *condition),
        JournalRecord::Forgotten(source, ranges) => {
            push_forgotten(out, *source, ranges.as_slice())
        }
    }
}

fn push_record(out: &mut Vec<u8>, record: &JournalRecord) -> Result<(), AllocError>
    ensures { OnOk result (out.new.items ≡ out.old.items ++ record_octets «record».now) }
{
    push_octet(out, record.kind().code())?;
    push_body(out, record)
}

/// Returns the text of a batch of these records.
///
/// # Errors
///
/// `AllocError` if memory runs out.
pub fn write_records(alloc: Global, records: &[JournalRecord]) -> Result<Vec<u8>, AllocError>
    ensures { IfOk result (λ v. v.items ≡ records_octets records.now) }
{
    let mut out = Vec::new(alloc);
    push_number(&mut out, records.len() as u64)?;
    for record in records {
        push_record(&mut out, record)?;
    }
    Ok(out)
}
