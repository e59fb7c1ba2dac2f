// Walks over the blocks of transactions that may have a timer which is due.
ghost use Rattle.std.specs.Prelude.{◌≡◌, ℕ, ◌+◌, ◌*◌, ◌^◌, ◌≤◌, ◌<◌, ◌++◌, Some, [], true, length};
ghost use Rattle.std.specs.Prelude.{map, drop, get_or, IfOk, OnOk, OnErr};
ghost use Rattle.cfdp_timers.specs.Entries as kept;
ghost use Rattle.cfdp_timers.specs.Entries.{AreBounds, IsBound, alarms, deadlines_in, entry_of};
ghost use Rattle.cfdp_timers.specs.Entries.{next_of};

use crate::alarm::Alarm;
use crate::blocks::BLOCK;
use crate::bounds::Bounds;
use crate::deadlines::{Deadlines, earlier};
use cfdp_header::TransactionId;
use indexmap::IndexMap;
use std::alloc::{AllocError, Global};

/// Returns how many timers are due.
pub(crate) fn due_count(
    entries: &IndexMap<TransactionId, Deadlines>,
    bounds: &Bounds,
    now: u64,
) -> usize
    requires bounds { AreBounds entries.now.entries bounds.now }
    requires few { length entries.now.entries ≤ 2 ^ 59 }
    ensures count { result ≡ length (kept.due now (alarms entries.now.entries)) }
    ensures few { result ≤ 2 ^ 61 }
{
    let mut count = 0;
    for block in 0..blocks_due(entries, bounds, now) {
        count += count_block(entries, bounds, block, now);
    }
    count
}

/// Returns the timers that are due, transaction by transaction.
pub(crate) fn due(
    entries: &IndexMap<TransactionId, Deadlines>,
    bounds: &Bounds,
    now: u64,
    alloc: Global,
) -> Result<Vec<Alarm>, AllocError>
    requires bounds { AreBounds entries.now.entries bounds.now }
    ensures ok { IfOk result (λ due. map entry_of due.items
        ≡ kept.due now (alarms entries.now.entries)) }
    ensures err { OnErr result (1 ≤ length (kept.due now (alarms entries.now.entries))) }
{
    let mut due = Vec::new(alloc);
    for block in 0..blocks_due(entries, bounds, now) {
        push_block(entries, bounds, block, now, &mut due)?;
    }
    Ok(due)
}

/// Makes the bounds that are due as late as the deadlines allow.
pub(crate) fn tighten(entries: &IndexMap<TransactionId, Deadlines>, bounds: &mut Bounds, now: u64)
    requires bounds { AreBounds entries.now.entries bounds.old }
    ensures bounds { AreBounds entries.now.entries bounds.new }
{
    let blocks = blocks_due(entries, bounds, now);
    if blocks == 0 {
        return;
    }
    for block in 0..blocks {
        tighten_block(entries, bounds, block, now);
    }
    bounds.settle();
}

// Returns how many blocks must be looked at, from the first on, for all timers that are due.
fn blocks_due(entries: &IndexMap<TransactionId, Deadlines>, bounds: &Bounds, now: u64) -> usize
    requires bounds { AreBounds entries.now.entries bounds.now }
    ensures within { result ≤ length bounds.now }
    ensures few { result ≤ 2 ^ 57 }
    ensures others { kept.due now (alarms (drop (64 * result) entries.now.entries)) ≡ [] }
{
    if bounds.are_after(now) {
        return 0;
    }
    entries.len().div_ceil(BLOCK)
}

// Returns how many timers of a block are due.
fn count_block(
    entries: &IndexMap<TransactionId, Deadlines>,
    bounds: &Bounds,
    block: usize,
    now: u64,
) -> usize
    requires bounds { AreBounds entries.now.entries bounds.now }
    requires within { block < length bounds.now }
    requires few { block < 2 ^ 57 }
    ensures count { result
        + length (kept.due now (alarms (drop (64 * (block + 1)) entries.now.entries)))
        ≡ length (kept.due now (alarms (drop (64 * block) entries.now.entries))) }
{
    if now < bounds.at(block) {
        return 0;
    }
    let mut count = 0;
    for place in block * BLOCK..(block + 1) * BLOCK {
        count += count_at(entries, place, now);
    }
    count
}

// Adds the timers of a block that are due.
fn push_block(
    entries: &IndexMap<TransactionId, Deadlines>,
    bounds: &Bounds,
    block: usize,
    now: u64,
    due: &mut Vec<Alarm>,
) -> Result<(), AllocError>
    requires bounds { AreBounds entries.now.entries bounds.now }
    requires within { block < length bounds.now }
    requires few { block < 2 ^ 57 }
    ensures ok { OnOk result (map entry_of due.new.items
        ++ kept.due now (alarms (drop (64 * (block + 1)) entries.now.entries))
        ≡ map entry_of due.old.items
        ++ kept.due now (alarms (drop (64 * block) entries.now.entries))) }
    ensures err { OnErr result (1 ≤ length (kept.due now (alarms entries.now.entries))) }
{
    if now < bounds.at(block) {
        return Ok(());
    }
    for place in block * BLOCK..(block + 1) * BLOCK {
        push_at(entries, place, now, due)?;
    }
    Ok(())
}

// Makes the bound of a block as late as its deadlines allow, if it is due.
fn tighten_block(
    entries: &IndexMap<TransactionId, Deadlines>,
    bounds: &mut Bounds,
    block: usize,
    now: u64,
)
    requires bounds { AreBounds entries.now.entries bounds.old }
    requires within { block < length bounds.old }
    requires few { block < 2 ^ 57 }
    ensures bounds { AreBounds entries.now.entries bounds.new }
    ensures len { length bounds.new ≡ length bounds.old }
{
    if now < bounds.at(block) {
        return;
    }
    let bound = earliest_in(entries, block);
    bounds.set(block, bound);
}

// Returns the earliest deadline of a block, or the last time there is if it has none.
fn earliest_in(entries: &IndexMap<TransactionId, Deadlines>, block: usize) -> u64
    requires few { block < 2 ^ 57 }
    ensures { IsBound entries.now.entries block result }
{
    let mut earliest = None;
    for place in block * BLOCK..(block + 1) * BLOCK {
        earliest = earlier(earliest, earliest_at(entries, place));
    }
    earliest.unwrap_or(u64::MAX)
}

/// Returns the earliest deadline of all, if `others` is the earliest except Inactivity's. Blocks
/// are skipped if none of their deadlines can be earlier.
pub(crate) fn earliest_of_all(
    entries: &IndexMap<TransactionId, Deadlines>,
    bounds: &Bounds,
    others: Option<u64>,
) -> Option<u64>
    requires bounds { AreBounds entries.now.entries bounds.now }
    requires few { length entries.now.entries ≤ 2 ^ 59 }
    requires others { others ≡ kept.earliest_of (kept.others_of entries.now.entries) }
    ensures { result ≡ kept.earliest (alarms entries.now.entries) }
{
    let mut first = others;
    for block in 0..entries.len().div_ceil(BLOCK) {
        first = earlier_in(entries, bounds, block, first);
    }
    first
}

// Returns the earlier of a deadline and the earliest of a block.
fn earlier_in(
    entries: &IndexMap<TransactionId, Deadlines>,
    bounds: &Bounds,
    block: usize,
    first: Option<u64>,
) -> Option<u64>
    requires bounds { AreBounds entries.now.entries bounds.now }
    requires within { block < length bounds.now }
    requires few { block < 2 ^ 57 }
    ensures { kept.earlier result (kept.earliest (alarms (drop (64 * (block + 1))
        entries.now.entries))) ≡ kept.earlier first (kept.earliest (alarms (drop (64 * block)
        entries.now.entries))) }
{
    if is_no_later(first, bounds.at(block)) {
        return first;
    }
    let mut earliest = first;
    for place in block * BLOCK..(block + 1) * BLOCK {
        earliest = earlier(earliest, earliest_at(entries, place));
    }
    earliest
}

fn is_no_later(first: Option<u64>, bound: u64) -> bool
    ensures { result ≡ true → (deadline : ℕ) × (first ≡ Some deadline) × (deadline ≤ bound) }
{
    match first {
        Some(deadline) => deadline <= bound,
        None => false,
    }
}

// Returns how many timers of the transaction at an index are due.
fn count_at(entries: &IndexMap<TransactionId, Deadlines>, place: usize, now: u64) -> usize
    ensures count { result
        + length (kept.due now (alarms (drop (place + 1) entries.now.entries)))
        ≡ length (kept.due now (alarms (drop place entries.now.entries))) }
    ensures four { result ≤ 4 }
{
    match entries.get_index(place) {
        Some((_id, deadlines)) => deadlines.due_count(now),
        None => 0,
    }
}

// Adds the timers of the transaction at an index that are due.
fn push_at(
    entries: &IndexMap<TransactionId, Deadlines>,
    place: usize,
    now: u64,
    due: &mut Vec<Alarm>,
) -> Result<(), AllocError>
    ensures ok { OnOk result (map entry_of due.new.items
        ++ kept.due now (alarms (drop (place + 1) entries.now.entries))
        ≡ map entry_of due.old.items
        ++ kept.due now (alarms (drop place entries.now.entries))) }
    ensures err { OnErr result (1 ≤ length (kept.due now (alarms entries.now.entries))) }
{
    match entries.get_index(place) {
        Some((id, deadlines)) => deadlines.push_due(*id, now, due),
        None => Ok(()),
    }
}

/// Returns the earliest deadline of the transaction at an index.
pub(crate) fn earliest_at(entries: &IndexMap<TransactionId, Deadlines>, place: usize) -> Option<u64>
    ensures { result ≡ next_of (deadlines_in entries.now.entries place) }
{
    let (_id, deadlines) = entries.get_index(place)?;
    deadlines.next()
}
