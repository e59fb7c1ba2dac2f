//! Which files that are received are given up: for their memory if it is short, or for their
//! silence if very many come.
ghost use Rattle.std.specs.Prelude.{◌≡◌};
ghost use Rattle.cfdp_service.specs.Limits.{beyond, gives_up, lacks_memory};

use cfdp_header::TransactionId;
use cfdp_station::{Phase, Record, Station, Timer};
use cfdp_store::{Inbox, Outbox};
use std::alloc::{AllocError, Global};

/// The most gaps of all files together that are received: so they take 256 MiB at most.
const MOST_GAPS: u64 = 4_194_304;

/// A file with fewer gaps isn't given up for its memory, since that would release little.
const LEAST_GAPS: u64 = 1024;

/// The most files that are received if no limit is set: as many as a peer sends at most.
const MOST_RECEIVED: usize = 3072;

/// How many records a station has.
const RECORDS: u64 = 4096;

/// The gaps in what is held of the files that are received.
#[derive(Clone, Copy)]
pub(crate) struct GapCount {
    // Of all of them, and of the file that has the most, with its transaction.
    all: u64,
    most: u64,
    id: Option<TransactionId>,
}

impl GapCount {
    /// Counts the gaps of all files that a station receives.
    pub(crate) fn of<O: Outbox, I: Inbox>(station: &Station<O, I>) -> GapCount {
        let mut count = GapCount {
            all: 0,
            most: 0,
            id: None,
        };
        for (id, record) in station.records() {
            if let Record::Receives(receiver) = record {
                count.adds(*id, receiver.held().gap_count() as u64);
            }
        }
        count
    }

    /// Adds the gaps of the file of this transaction.
    fn adds(&mut self, id: TransactionId, gaps: u64) {
        self.all = self.all.saturating_add(gaps);
        if gaps > self.most {
            self.most = gaps;
            self.id = Some(id);
        }
    }

    /// Returns `true` if PDUs were dropped because memory was refused, by how many were dropped as
    /// NoMemory until before and until now. If a file has as many gaps as this limit allows, its
    /// data may have been dropped for that alone. The limit is 0 if there is none.
    pub(crate) fn lacks_memory(&self, before: u64, now: u64, limit: u64) -> bool
        ensures { result ≡ lacks_memory before now self.now.most limit }
    {
        before < now && (limit == 0 || self.most < limit)
    }

    /// Returns the file that must be given up, if one must: the one with the most gaps.
    pub(crate) fn given_up(&self, is_short: bool) -> Option<TransactionId> {
        if gives_up(is_short, self.all, self.most) {
            self.id
        } else {
            None
        }
    }
}

/// Returns `true` if a file with this number of gaps must be given up, if no other file has more,
/// and all have this number: if memory is short or all have too many, unless it has few.
fn gives_up(is_short: bool, all: u64, most: u64) -> bool
    ensures { result ≡ gives_up is_short all most }
{
    (is_short || all > MOST_GAPS) && most >= LEAST_GAPS
}

/// Returns how many of so many files that are received are too many, if no limit is set.
fn beyond(received: usize) -> usize
    ensures { result ≡ beyond received }
{
    received.saturating_sub(MOST_RECEIVED)
}

/// Returns a number for the transaction with this index: it is less the longer the transaction has
/// been silent, and of two that were silent as long it is less for the later one.
fn silence<O: Outbox, I: Inbox>(station: &Station<O, I>, id: TransactionId, index: u64) -> u64 {
    match station.deadline_of(id, Timer::Inactivity) {
        Some(deadline) => deadline
            .saturating_mul(RECORDS)
            .saturating_add(RECORDS.saturating_sub(index)),
        None => u64::MAX,
    }
}

/// Returns the silences of all files that are received, in ascending order.
///
/// # Errors
///
/// `AllocError` if there is no memory for them.
fn silences<O: Outbox, I: Inbox>(
    alloc: Global,
    station: &Station<O, I>,
) -> Result<Vec<u64>, AllocError> {
    let mut silences = Vec::new(alloc);
    let mut index = 0u64;
    for (id, phase) in station.transactions() {
        if phase == Phase::Receiving {
            silences.push(silence(station, id, index))?;
        }
        index = index.saturating_add(1);
    }
    silences.sort_unstable();
    Ok(silences)
}

/// Adds to those that must be cancelled the files that have been silent the longest, if more than
/// 3,072 are received. If there is no memory to find them, it adds none.
pub(crate) fn refuse_silent<O: Outbox, I: Inbox>(
    alloc: Global,
    station: &Station<O, I>,
    refused: &mut Vec<TransactionId>,
) {
    // Fewer records can't be too many.
    if beyond(4096usize.saturating_sub(station.records_left())) == 0 {
        return;
    }
    if let Ok(silences) = silences(alloc, station)
        && let Some(last) = beyond(silences.len()).checked_sub(1)
        && let Some(last) = silences.get(last)
    {
        refuse_up_to(*last, station, refused);
    }
}

/// Adds to those that must be cancelled the files that are received and whose silence is at most
/// this.
fn refuse_up_to<O: Outbox, I: Inbox>(
    last: u64,
    station: &Station<O, I>,
    refused: &mut Vec<TransactionId>,
) {
    let mut index = 0u64;
    for (id, phase) in station.transactions() {
        let is_silent = phase == Phase::Receiving && silence(station, id, index) <= last;
        if is_silent && !refused.contains(&id) {
            let _ = refused.push(id);
        }
        index = index.saturating_add(1);
    }
}
