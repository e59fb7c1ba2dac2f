// Numbers of transactions of one source.
ghost use Rattle.std.specs.Prelude.{◌≡◌, ◌<◌, ◌-◌, ℕ, true, OnOk, OnErr, IsOk};
ghost use Rattle.std.specs.FinSet as set;
ghost use Rattle.cfdp_extents.specs.Offsets.{AreRangesOf, range};
ghost use Rattle.cfdp_extents.specs.Forgotten.{below_greatest};

use crate::extents::Extents;
use crate::ranges::Ranges;
use std::alloc::{AllocError, Global};
use std::marker::Model;

/// A set of numbers of transactions, kept as ranges: if numbers follow one another, they are one
/// range.
#[derive(Debug, Drop)]
pub struct Numbers {
    // All except the greatest there is: no range ends after that.
    ranges: Extents,
    greatest: bool,
}

impl Model for Numbers {
    ghost use Rattle.std.specs.Prelude.{◌≡◌, ◌<◌, ◌-◌, ◌^◌, ℕ, true};
    ghost use Rattle.std.specs.Coded.{coded_ℕ};
    ghost use Rattle.std.specs.FinSet as set;
    ghost use Rattle.cfdp_extents.specs.Forgotten.{NumberSet, with_greatest};

    ghost Value = { NumberSet };

    ghost coded = { set.code coded_ℕ };

    ghost view = { λ n. with_greatest n.greatest n.ranges };

    ghost invariant = { λ n. (k : ℕ) → set.contains n.ranges k ≡ true → k < 2 ^ 64 - 1 };
}

impl Numbers {
    /// Returns a set of no numbers.
    pub fn new(alloc: Global) -> Self
        ensures { result ≡ set.empty }
    {
        Numbers {
            ranges: Extents::new(alloc),
            greatest: false,
        }
    }

    /// Returns `true` if a number is in it.
    pub fn contains(&self, number: u64) -> bool
        ensures { result ≡ set.contains self.now number }
    {
        match number.checked_add(1) {
            Some(behind) => self.ranges.covers(number, behind),
            None => self.greatest,
        }
    }

    /// Adds a number.
    ///
    /// # Errors
    ///
    /// If there is no memory for one more range. The set is then unchanged.
    pub fn insert(&mut self, number: u64) -> Result<(), AllocError>
        ensures ok { OnOk result (self.new ≡ set.insert self.old number) }
        ensures err { OnErr result (self.new ≡ self.old) }
        // If a number is in it already, it takes no memory.
        ensures held { set.contains self.old number ≡ true → IsOk result }
        // Nor does a number that follows the greatest of them.
        ensures next { ((k : ℕ) → set.contains self.old k ≡ true → k < number)
            → set.contains self.old (number - 1) ≡ true → IsOk result }
    {
        match number.checked_add(1) {
            Some(behind) => self.ranges.insert(number, behind)?,
            None => self.greatest = true,
        }
        Ok(())
    }

    /// Adds the numbers from `start` up to, and without, `end`; none if `end` isn't greater.
    ///
    /// # Errors
    ///
    /// `AllocError` if there is no memory for one more range. The set is then unchanged.
    pub fn insert_range(&mut self, start: u64, end: u64) -> Result<(), AllocError>
        ensures ok { OnOk result (self.new ≡ set.union self.old (range start end)) }
        ensures err { OnErr result (self.new ≡ self.old) }
    {
        if start < end {
            self.ranges.insert(start, end)?;
        }
        Ok(())
    }

    /// Returns the ranges of the numbers, ascending, of all but `u64::MAX`: no range ends after
    /// that number. `contains` says whether it is in the set. Allocates nothing.
    pub fn ranges(&self) -> Ranges<'_>
        // Ascending, none empty, no two touching, and together all numbers but the greatest.
        ensures { AreRangesOf (below_greatest self.now) result }
    {
        self.ranges.ranges()
    }
}
