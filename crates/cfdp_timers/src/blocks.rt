// Deadlines by index, and the earliest of each block of them.
ghost use Rattle.std.specs.Prelude.{◌≡◌, ◌+◌, ◌*◌, ◌/◌, ◌≤◌, ◌<◌, ◌++◌, [], ◌∷◌, None, ◌-◌, length};
ghost use Rattle.std.specs.Prelude.{take, drop, get_or, slice_set, swap_remove, OnOk, OnErr};
ghost use Rattle.cfdp_timers.specs.Entries as kept;
ghost use Rattle.cfdp_timers.specs.Entries.{AreFirsts};

use crate::deadlines::earlier;
use std::alloc::{AllocError, Global};
use std::marker::Model;

/// How many indices a block has.
pub(crate) const BLOCK: usize = 64;

/// Deadlines by index; `None` if there is none.
#[derive(Debug, Drop)]
pub(crate) struct Blocks {
    each: Vec<Option<u64>>,
    // The earliest of each block of 64 indices.
    firsts: Vec<Option<u64>>,
}

impl Model for Blocks {
    ghost use Rattle.std.specs.Prelude.{ℕ, List, Option};
    ghost use Rattle.cfdp_timers.specs.Entries.{AreFirsts};

    ghost Value = { List (Option ℕ) };

    ghost view = { λ b. b.each.items };

    ghost invariant = { λ b. AreFirsts 64 b.each.items b.firsts.items };
}

impl Blocks {
    pub(crate) fn new(alloc: Global) -> Self
        ensures { result ≡ [] }
    {
        Blocks {
            each: Vec::new(alloc),
            firsts: Vec::new(alloc),
        }
    }

    /// Adds an index without a deadline.
    pub(crate) fn push(&mut self) -> Result<(), AllocError>
        ensures ok { OnOk result (self.new ≡ self.old ++ None ∷ []) }
        ensures err { OnErr result (self.new ≡ self.old) }
    {
        cover(&self.each, &mut self.firsts)?;
        self.each.push(None)?;
        Ok(())
    }

    /// Sets the deadline of an index. The others of its block are looked at only if its earliest
    /// may have gone.
    pub(crate) fn set(&mut self, place: usize, deadline: Option<u64>)
        requires within { place < length self.old }
        ensures { self.new ≡ slice_set self.old place deadline }
    {
        let old = self.each[place];
        self.each[place] = deadline;
        put(&self.each, &mut self.firsts, place, old);
    }

    /// Removes an index. The last one takes it.
    pub(crate) fn swap_remove(&mut self, place: usize)
        requires within { place < length self.old }
        ensures { self.new ≡ swap_remove self.old place None }
    {
        let last = self.each.len() - 1;
        let moved = self.each[last];
        self.set(place, moved);
        self.set(last, None);
        self.pop();
    }

    // Removes the last index, which must have no deadline.
    fn pop(&mut self)
        requires some { 0 < length self.old }
        requires none { get_or self.old (length self.old - 1) None ≡ None }
        ensures { self.new ≡ take (length self.old - 1) self.old }
    {
        let _ = self.each.pop();
    }

    /// Returns the earliest of all.
    pub(crate) fn earliest(&self) -> Option<u64>
        ensures { result ≡ kept.earliest_of self.now }
    {
        earliest_of(&self.firsts)
    }
}

// Adds a block if all are full.
fn cover(each: &[Option<u64>], firsts: &mut Vec<Option<u64>>) -> Result<(), AllocError>
    requires are { AreFirsts 64 each.now firsts.old.items }
    ensures are { AreFirsts 64 each.now firsts.new.items }
    ensures room { OnOk result (length each.now < 64 * length firsts.new.items) }
{
    if each.len() / BLOCK >= firsts.len() {
        firsts.push(None)?;
    }
    Ok(())
}

// Keeps the earliest of a block that had the deadline `old` at one index.
fn put(each: &[Option<u64>], firsts: &mut [Option<u64>], place: usize, old: Option<u64>)
    requires are { AreFirsts 64 (slice_set each.now place old) firsts.old }
    requires within { place < length each.now }
    ensures are { AreFirsts 64 each.now firsts.new }
{
    let block = place / BLOCK;
    let first = firsts[block];
    firsts[block] = first_of(each, place, first, old);
}

// Returns the earliest of the block of an index which had the deadline `old`, if `first` was the
// earliest. All are looked at only if this index may have had the earliest.
fn first_of(each: &[Option<u64>], place: usize, first: Option<u64>, old: Option<u64>) -> Option<u64>
    requires within { place < length each.now }
    requires first { first ≡ kept.earliest_of (take 64 (drop (place / 64 * 64)
        (slice_set each.now place old))) }
    ensures { result ≡ kept.earliest_of (take 64 (drop (place / 64 * 64) each.now)) }
{
    let deadline = each[place];
    if first != old {
        return earlier(first, deadline);
    }
    if earlier(old, deadline) == deadline {
        return earlier(first, deadline);
    }
    earliest_of(block_of(each, place / BLOCK))
}

fn earliest_of(deadlines: &[Option<u64>]) -> Option<u64>
    ensures { result ≡ kept.earliest_of deadlines.now }
{
    let mut earliest = None;
    for deadline in deadlines {
        earliest = earlier(earliest, *deadline);
    }
    earliest
}

// Returns the deadlines of a block.
fn block_of(each: &[Option<u64>], block: usize) -> &[Option<u64>]
    requires within { block * 64 ≤ length each.now }
    ensures { result.now ≡ take 64 (drop (block * 64) each.now) }
{
    let (_, rest) = each.split_at(block * BLOCK);
    let (front, _) = rest.split_at(rest.len().min(BLOCK));
    front
}
