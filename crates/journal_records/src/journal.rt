//! Journals.
ghost use Rattle.std.specs.Prelude.{◌≡◌, List, drop, IfOk, Err};
ghost use Rattle.batches.specs.Batch.{batch};
ghost use Rattle.journal_records.specs.declared.fault.BatchFault.{BatchFault};
ghost use Rattle.journal_records.specs.declared.record.JournalRecord.{JournalRecord};
ghost use Rattle.journal_records.specs.Journal.{IsFaulty, IsJournal, all_records};
ghost use Rattle.journal_records.specs.Writing.{records_octets};

use crate::fault::ReadError;
use crate::reading::read_records;
use crate::record::JournalRecord;
use crate::writing::write_records;
use batches::{HEAD_LEN, first_batch, write_batch};
use std::alloc::{AllocError, Global};

/// What a journal says.
#[derive(Debug, Drop)]
pub struct JournalText {
    /// The records of its whole batches, in order.
    pub records: Vec<JournalRecord>,
    /// Octets of these batches. If more octets follow, a crash cut off the batch that they began.
    pub end: usize,
}

/// Returns a batch of these records, which goes to the end of a journal.
///
/// # Errors
///
/// `AllocError` if memory runs out.
pub fn batch_of(alloc: Global, records: &[JournalRecord]) -> Result<Vec<u8>, AllocError>
    ensures { IfOk result (λ v. v.items ≡ batch (records_octets records.now)) }
{
    let text = write_records(alloc, records)?;
    let mut out = vec![in alloc; 0u8; HEAD_LEN + text.len()]?;
    write_batch(&mut out, 0, &text);
    Ok(out)
}

/// Returns what a journal says: the records of all whole batches at its front.
///
/// # Errors
///
/// `BatchFault` if the text of a whole batch is wrong, with its first fault; `Memory` if memory
/// runs out.
pub fn read_journal(alloc: Global, bytes: &[u8]) -> Result<JournalText, ReadError>
    ensures found { IfOk result (λ j. (lists : List (List JournalRecord))
        × IsJournal bytes.now lists (drop j.end bytes.now)
        × (j.records.items ≡ all_records lists)) }
    ensures refused { (fault : BatchFault) → result ≡ Err (ReadError.Fault fault)
        → IsFaulty bytes.now fault }
{
    let mut records = Vec::new(alloc);
    let mut end = 0;
    while let Some(text) = first_batch(&bytes[end..]) {
        let mut more = read_records(alloc, text)?;
        records.append(&mut more)?;
        end += HEAD_LEN + text.len();
    }
    Ok(JournalText { records, end })
}
