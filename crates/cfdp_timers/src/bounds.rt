// A bound for each block of indices: a time before which none of its timers is due.
ghost use Rattle.std.specs.Prelude.{◌≡◌, ℕ, ◌<◌, ◌≤◌, ◌++◌, ◌-◌, ◌^◌, [], ◌∷◌, true, length};
ghost use Rattle.std.specs.Prelude.{get_or, slice_set, OnOk, OnErr};
ghost use Rattle.cfdp_timers.specs.Entries.{lowered};

use std::alloc::{AllocError, Global};
use std::marker::Model;

/// Bounds by block. If a deadline goes or is put off, its bound stays too early, so that no other
/// deadline must be looked at; `tighten` of `walk` corrects it once that time has come.
#[derive(Debug, Drop)]
pub(crate) struct Bounds {
    each: Vec<u64>,
    // No bound is earlier.
    first: u64,
}

impl Model for Bounds {
    ghost use Rattle.std.specs.Prelude.{ℕ, List, ◌≤◌, ◌<◌, length, get_or};

    ghost Value = { List ℕ };

    ghost view = { λ b. b.each.items };

    ghost invariant = { λ b. (block : ℕ) → block < length b.each.items
        → b.first ≤ get_or b.each.items block 0 };
}

impl Bounds {
    pub(crate) fn new(alloc: Global) -> Self
        ensures { result ≡ [] }
    {
        Bounds {
            each: Vec::new(alloc),
            first: u64::MAX,
        }
    }

    /// Adds a block without deadlines.
    pub(crate) fn push(&mut self) -> Result<(), AllocError>
        ensures ok { OnOk result (self.new ≡ self.old ++ (2 ^ 64 - 1) ∷ []) }
        ensures err { OnErr result (self.new ≡ self.old) }
    {
        self.each.push(u64::MAX)?;
        Ok(())
    }

    /// Returns how many blocks there are.
    pub(crate) fn len(&self) -> usize
        ensures { result ≡ length self.now }
    {
        self.each.len()
    }

    /// Returns the bound of a block.
    pub(crate) fn at(&self, block: usize) -> u64
        requires within { block < length self.now }
        ensures { result ≡ get_or self.now block 0 }
    {
        self.each[block]
    }

    /// Returns `true` if a time is before all bounds.
    pub(crate) fn are_after(&self, now: u64) -> bool
        ensures { result ≡ true
            → (block : ℕ) → block < length self.now → now < get_or self.now block 0 }
    {
        now < self.first
    }

    /// Sets the bound of a block.
    pub(crate) fn set(&mut self, block: usize, bound: u64)
        requires within { block < length self.old }
        ensures { self.new ≡ slice_set self.old block bound }
    {
        self.each[block] = bound;
        self.first = self.first.min(bound);
    }

    /// Makes the bound of a block early enough once one of its timers is armed with this deadline,
    /// or cleared.
    pub(crate) fn lower(&mut self, block: usize, deadline: Option<u64>)
        requires within { block < length self.old }
        ensures { self.new ≡ lowered self.old block deadline }
    {
        if let Some(deadline) = deadline
            && deadline < self.each[block]
        {
            self.set(block, deadline);
        }
    }

    /// Finds the earliest bound again.
    pub(crate) fn settle(&mut self)
        ensures { self.new ≡ self.old }
    {
        self.first = least_of(&self.each);
    }
}

fn least_of(bounds: &[u64]) -> u64
    ensures { (block : ℕ) → block < length bounds.now → result ≤ get_or bounds.now block 0 }
{
    let mut least = u64::MAX;
    for bound in bounds {
        least = least.min(*bound);
    }
    least
}
