//! What the records of a journal say together.
ghost use Rattle.std.specs.Prelude.{◌≡◌, ◌<◌, ◌++◌, length, map, set, slice_get, position};
ghost use Rattle.std.specs.Prelude.{Option, None, Some, IfOk, OnOk, if◌then◌else◌};
ghost use Rattle.std.specs.List.{flat_map, list_any};
ghost use Rattle.std.specs.Option.{option_map};
ghost use Rattle.cfdp_extents.specs.Offsets.{is_within};
ghost use Rattle.cfdp_header.specs.Ids.{same_id};
ghost use Rattle.cfdp_header.specs.declared.value.TransactionId.{TransactionId};
ghost use Rattle.transfer_journal.specs.declared.kept.KeptTransfer.{KeptTransfer};
ghost use Rattle.transfer_journal.specs.Kept.{transfer_after};
ghost use Rattle.transfer_journal.specs.Says.{all_say, forgotten_by, id_of, is_in, opened_by};
ghost use Rattle.transfer_journal.specs.Survey.{Adds, Forgets, Hears, IsAligned, Takes, known_of};
ghost use Rattle.transfer_journal.specs.Survey.{owner_after, owner_in, range_of};
ghost use Rattle.transfer_journal.specs.Survey.{ranges_by, with_none};

use crate::kept::{KeptEnd, KeptReceiver, KeptSender, KeptTransfer, Publication};
use cfdp_directives::Addressing;
use cfdp_header::TransactionId;
use cfdp_receiver::ReceiverPhase;
use cfdp_store::part_name;
use indexmap::IndexSet;
use journal_records::{JournalRecord, Owner, RangeList};
use std::alloc::{AllocError, Global};
use std::collections::BTreeSet;

/// Transactions of one source that are forgotten: those from `start` on, and below `end`.
#[derive(Clone, Copy, Debug)]
pub struct ForgottenRange {
    /// The entity that sent them.
    pub source: u64,
    /// The first number.
    pub start: u64,
    /// One more than the last number.
    pub end: u64,
}

/// What a journal says: whose it is, which transactions are open or not yet forgotten, in order of
/// opening, and which are forgotten.
#[derive(Drop)]
pub struct Survey {
    alloc: Global,
    // How a transaction is addressed if only its publication is noted.
    addressing: Addressing,
    owner: Option<Owner>,
    // The transactions that were opened, and what is kept of each: `None` if it is forgotten.
    ids: IndexSet<TransactionId>,
    transfers: Vec<Option<KeptTransfer>>,
    forgotten: Vec<ForgottenRange>,
}

impl Survey {
    /// Returns what the records of a journal say, in their order. If they note only of a file that
    /// it is about to be published, its transaction is addressed as `addressing` says.
    ///
    /// # Errors
    ///
    /// `AllocError` if there is no memory for what they say.
    pub fn of(
        alloc: Global,
        addressing: Addressing,
        records: Vec<JournalRecord>,
    ) -> Result<Survey, AllocError>
        // Of each transaction it has what the records say.
        ensures says { IfOk result (λ survey. (id : TransactionId) →
            known_of id survey ≡ all_say addressing id records.items None) }
        ensures owner { IfOk result (λ survey. survey.owner ≡ owner_after None records.items) }
        ensures forgotten { IfOk result (λ survey. survey.forgotten.items
            ≡ flat_map ranges_by records.items) }
    {
        let mut survey = Survey {
            alloc,
            addressing,
            owner: None,
            ids: IndexSet::new(alloc),
            transfers: Vec::new(alloc),
            forgotten: Vec::new(alloc),
        };
        for next in records {
            survey.takes(next)?;
        }
        Ok(survey)
    }

    /// Returns whose journal it is, if it says so.
    pub fn owner(&self) -> Option<Owner>
        ensures { result ≡ self.now.owner }
    {
        self.owner
    }

    /// Returns the transactions that are forgotten.
    pub fn forgotten(&self) -> &[ForgottenRange]
        ensures { result.now ≡ self.now.forgotten.items }
    {
        self.forgotten.as_slice()
    }

    /// Returns the transactions, in order of opening; `None` in place of each that is forgotten.
    pub fn into_transfers(self) -> Vec<Option<KeptTransfer>>
        ensures { result ≡ self.transfers }
    {
        self.transfers
    }

    /// Returns the names of the part files that are still needed.
    ///
    /// # Errors
    ///
    /// `AllocError` if there is no memory for them.
    pub fn part_names(&self) -> Result<BTreeSet<String>, AllocError> {
        let mut names = BTreeSet::new(self.alloc);
        for transfer in &self.transfers {
            if let Some(transfer) = transfer
                && let KeptEnd::Receives(receiver) = &transfer.end
                && receiver.phase == ReceiverPhase::Receiving
            {
                let _ = names.insert(part_name(self.alloc, transfer.id)?)?;
            }
        }
        Ok(names)
    }

    /// Returns `true` if a file of this name is being sent under that one.
    pub fn sends(&self, source: &[u8], destination: &[u8]) -> bool {
        self.transfers.iter().any(|transfer| match transfer {
            Some(transfer) => match &transfer.end {
                KeptEnd::Sends(sender) => sender.is_of(source, destination),
                KeptEnd::Receives(_) => false,
            },
            None => false,
        })
    }

    /// Returns the greatest number of a transaction of this source, if there is one.
    pub fn greatest_number(&self, source: u64) -> Option<u64> {
        let known = self.transfers.iter().flatten();
        let open = known
            .filter(|transfer| transfer.id.source == source)
            .map(|transfer| transfer.id.number)
            .max();
        let over = self
            .forgotten
            .iter()
            .filter(|range| range.source == source)
            .filter_map(|range| range.end.checked_sub(1))
            .max();
        open.max(over)
    }

    /// Returns the transactions, to be changed; `None` in place of each that is forgotten.
    pub fn transfers_mut(&mut self) -> &mut [Option<KeptTransfer>] {
        self.transfers.as_mut_slice()
    }

    // Takes the next record.
    fn takes(&mut self, record: JournalRecord) -> Result<(), AllocError>
        requires aligned { IsAligned self.old }
        ensures { OnOk result (Takes «record» self.old self.new) }
    {
        match id_of(&record) {
            Some(id) => self.hears(id, record),
            None => {
                let answer = self.notes(&record);
                drop(record);
                answer
            }
        }
    }

    // Takes a record that is about no single transaction.
    fn notes(&mut self, record: &JournalRecord) -> Result<(), AllocError>
        requires aligned { IsAligned self.old }
        requires about { id_of «record».now ≡ None }
        ensures { OnOk result (Takes «record».now self.old self.new) }
    {
        self.owner = owner_in(record).or(self.owner);
        match forgotten_by(record) {
            Some(those) => self.forgets(those.0, those.1.as_slice()),
            None => Ok(()),
        }
    }

    // Forgets the transactions of this source with numbers in these ranges.
    fn forgets(&mut self, source: u64, ranges: &[(u64, u64)]) -> Result<(), AllocError>
        requires aligned { IsAligned self.old }
        ensures { OnOk result (Forgets source ranges.now self.old self.new) }
    {
        push_ranges(&mut self.forgotten, source, ranges)?;
        let slots = self.transfers.as_mut_slice();
        drop_those(self.ids.as_slice(), slots, source, ranges);
        Ok(())
    }

    // Takes a record about this transaction.
    fn hears(&mut self, id: TransactionId, record: JournalRecord) -> Result<(), AllocError>
        requires aligned { IsAligned self.old }
        ensures { OnOk result (Hears id «record» self.old self.new) }
    {
        match self.ids.get_index_of(&id) {
            Some(place) => goes_on(self.transfers.as_mut_slice(), place, record),
            None => self.opens(id, record),
        }
    }

    // Takes a record about a transaction that isn't known.
    fn opens(&mut self, id: TransactionId, record: JournalRecord) -> Result<(), AllocError>
        requires aligned { IsAligned self.old }
        requires unknown { position (same_id id) self.old.ids.keys ≡ None }
        ensures { OnOk result (Hears id «record» self.old self.new) }
    {
        match opened_by(self.alloc, self.addressing, record) {
            Some(end) => self.adds(id, end),
            None => Ok(()),
        }
    }

    // Adds a transaction that isn't known.
    fn adds(&mut self, id: TransactionId, end: KeptEnd) -> Result<(), AllocError>
        requires aligned { IsAligned self.old }
        requires unknown { position (same_id id) self.old.ids.keys ≡ None }
        ensures { OnOk result (Adds id end self.old self.new) }
    {
        let _ = self.ids.insert(id)?;
        self.transfers.push(Some(KeptTransfer {
            id,
            end,
            pending: None,
        }))?;
        Ok(())
    }
}

// Takes a record about the transaction that has this slot.
fn goes_on(
    slots: &mut [Option<KeptTransfer>],
    place: usize,
    record: JournalRecord,
) -> Result<(), AllocError>
    requires within { place < length slots.old }
    ensures { OnOk result ((slot : Option KeptTransfer) × (slice_get slots.old place ≡ Some slot)
        × (slots.new ≡ set slots.old place (option_map (transfer_after «record») slot))) }
{
    match &mut slots[place] {
        Some(transfer) => transfer.takes(record),
        None => {
            drop(record);
            Ok(())
        }
    }
}

// Returns the side of a transaction that a record opens, if it opens one.
fn opened_by(alloc: Global, addressing: Addressing, record: JournalRecord) -> Option<KeptEnd>
    ensures { result ≡ opened_by addressing «record» }
{
    match record {
        JournalRecord::Put(transfer) => Some(KeptEnd::Sends(KeptSender::put(transfer))),
        JournalRecord::Opened(addressing, large) => {
            Some(KeptEnd::Receives(KeptReceiver::opened(alloc, addressing, large)))
        }
        JournalRecord::Publishing(id, name, size) => {
            let addressing = Addressing { id, ..addressing };
            let mut receiver = KeptReceiver::opened(alloc, addressing, false);
            receiver.publishing = Some(Publication { name, size });
            Some(KeptEnd::Receives(receiver))
        }
        other => {
            drop(other);
            None
        }
    }
}

// Returns whose journal a record says it is, if it says so.
fn owner_in(record: &JournalRecord) -> Option<Owner>
    ensures { result ≡ owner_in «record».now }
{
    match record {
        JournalRecord::Station(owner) => Some(*owner),
        _ => None,
    }
}

// Returns the transaction that a record is about, if it is about one.
fn id_of(record: &JournalRecord) -> Option<TransactionId>
    ensures { result ≡ id_of «record».now }
{
    match record {
        JournalRecord::Put(transfer) => Some(transfer.addressing.id),
        JournalRecord::Opened(addressing, _) => Some(addressing.id),
        JournalRecord::Sent(id, _)
        | JournalRecord::EofTaken(id)
        | JournalRecord::Cancelling(id, _)
        | JournalRecord::HeardMetadata(id, _)
        | JournalRecord::HeardEof(id, _)
        | JournalRecord::Held(id, ..)
        | JournalRecord::Publishing(id, ..)
        | JournalRecord::Finishing(id, _)
        | JournalRecord::Closed(id, _)
        | JournalRecord::Suspended(id, _)
        | JournalRecord::PendingFinished(id, _)
        | JournalRecord::PendingAbandoned(id, _) => Some(*id),
        JournalRecord::Station(_) | JournalRecord::Forgotten(..) => None,
    }
}

// Returns the source and the numbers of the transactions that a record says are forgotten.
fn forgotten_by(record: &JournalRecord) -> Option<(u64, &RangeList)>
    ensures { option_map (λ those. (those.0, those.1.now)) result ≡ forgotten_by «record».now }
{
    match record {
        JournalRecord::Forgotten(source, ranges) => Some((*source, ranges)),
        _ => None,
    }
}

// Appends ranges of numbers of this source.
fn push_ranges(
    forgotten: &mut Vec<ForgottenRange>,
    source: u64,
    ranges: &[(u64, u64)],
) -> Result<(), AllocError>
    ensures { OnOk result (forgotten.new.items
        ≡ forgotten.old.items ++ map (range_of source) ranges.now) }
{
    for range in ranges {
        forgotten.push(ForgottenRange {
            source,
            start: range.0,
            end: range.1,
        })?;
    }
    Ok(())
}

// Drops what is kept of the transactions of this source with numbers in these ranges.
fn drop_those(
    ids: &[TransactionId],
    slots: &mut [Option<KeptTransfer>],
    source: u64,
    ranges: &[(u64, u64)],
)
    requires aligned { length slots.old ≡ length ids.now }
    ensures { slots.new ≡ with_none (is_in source ranges.now) ids.now slots.old }
{
    for (place, id) in ids.iter().enumerate() {
        drop_if(slots, place, is_in(source, ranges, *id));
    }
}

// Drops what is kept in a slot, if that is asked for.
fn drop_if(slots: &mut [Option<KeptTransfer>], place: usize, drops: bool)
    requires within { place < length slots.old }
    ensures { slots.new ≡ (if drops then set slots.old place None else slots.old) }
{
    if drops {
        slots[place] = None;
    }
}

// Returns `true` if a transaction is of this source, with a number in these ranges.
fn is_in(source: u64, ranges: &[(u64, u64)], id: TransactionId) -> bool
    ensures { result ≡ is_in source ranges.now id }
{
    id.source == source && has_number(ranges, id.number)
}

// Returns `true` if a number is in one of these ranges.
fn has_number(ranges: &[(u64, u64)], number: u64) -> bool
    ensures { result ≡ list_any (λ r. is_within r.0 r.1 number) ranges.now }
{
    for range in ranges {
        if is_within(range.0, range.1, number) {
            return true;
        }
    }
    false
}

fn is_within(start: u64, end: u64, number: u64) -> bool
    ensures { result ≡ is_within start end number }
{
    start <= number && number < end
}
