//! The laws, each the contract of a function without a body.
ghost use Rattle.std.specs.Prelude.{◌≡◌, ◌++◌, ◌<◌, ℕ, List, [], length, map, take, Ok};
ghost use Rattle.std.specs.List.{AllByRecursion};
ghost use Rattle.batches.specs.Batch.{batch, batches_of};
ghost use Rattle.journal_records.specs.declared.fault.BatchFault.{BatchFault};
ghost use Rattle.journal_records.specs.declared.record.JournalRecord.{JournalRecord};
ghost use Rattle.journal_records.specs.Journal.{FitBatch, IsFaulty, IsJournal};
ghost use Rattle.journal_records.specs.Reading.{records_in};
ghost use Rattle.journal_records.specs.Writing.{AreRecords, records_octets};

use batches::a_cut_leaves_whole_batches;

/// Records that are written are read again (`again`), and a journal that is written is one
/// (`whole`). If a crash cut off its last batch, the batches before it are there, and no others
/// (`cut`). A journal can be read in one way only (`one`), and isn't faulty (`fine`).
pub fn what_is_written_is_read()
    ensures again { (rs : List JournalRecord) → AreRecords rs
        → records_in (records_octets rs) ≡ Ok rs }
    ensures whole { (lists : List (List JournalRecord)) → AllByRecursion FitBatch lists
        → IsJournal (batches_of (map records_octets lists)) lists [] }
    ensures cut { (lists : List (List JournalRecord)) (rs : List JournalRecord) (n : ℕ) →
        AllByRecursion FitBatch lists → FitBatch rs → n < length (batch (records_octets rs))
        → IsJournal (batches_of (map records_octets lists) ++ take n (batch (records_octets rs)))
        lists (take n (batch (records_octets rs))) }
    ensures one { (bytes tail rest : List ℕ) (lists others : List (List JournalRecord)) →
        IsJournal bytes lists tail → IsJournal bytes others rest
        → (others ≡ lists) × (rest ≡ tail) }
    ensures fine { (bytes tail : List ℕ) (lists : List (List JournalRecord)) (fault : BatchFault) →
        IsJournal bytes lists tail → IsFaulty bytes fault → ⊥ }
{
    a_cut_leaves_whole_batches();
}
