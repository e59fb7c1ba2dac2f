//! Ranges of a file: the first ones, and how much all of them are.
ghost use Rattle.std.specs.Prelude.{◌≡◌, ◌++◌, ◌∷◌, ℕ, List, [], IfOk, OnErr, OnOk};
ghost use Rattle.cfdp_console.specs.Ranges.{Summarizes};
ghost use Rattle.cfdp_extents.specs.Terms.{gaps_of, ranges_of};

use cfdp_extents::Extents;
use std::alloc::{AllocError, Global};

/// Ranges of a file, each its start and its end, the end not in it: the first ones in their order,
/// how many there are, and how many octets they have together. So what is shown of them is short,
/// however many there are.
#[derive(Drop)]
pub struct RangeSummary {
    most: usize,
    first: Vec<(u64, u64)>,
    count: u64,
    octets: u64,
}

impl RangeSummary {
    /// Returns no ranges. Of those that are added, the first `most` are kept.
    pub fn new(alloc: Global, most: usize) -> RangeSummary
        ensures empty { Summarizes [] result }
        ensures most { result.most ≡ most }
    {
        RangeSummary {
            most,
            first: Vec::new(alloc),
            count: 0,
            octets: 0,
        }
    }

    /// Returns the ranges that are held of a file, and keeps the first `most` of them.
    ///
    /// # Errors
    ///
    /// `AllocError` if there is no memory for them.
    #[tactic(auto, using(crate::proofs::Summing::begins, crate::proofs::Summing::goes_on, crate::proofs::Summing::ends))]
    pub fn of_held(alloc: Global, most: usize, held: &Extents) -> Result<RangeSummary, AllocError>
        ensures { IfOk result (λ it. Summarizes (ranges_of held.now) it) }
    {
        let mut ranges = RangeSummary::new(alloc, most);
        for range in held.ranges() {
            ranges.add(range.0, range.1)?;
        }
        Ok(ranges)
    }

    /// Returns the gaps between these ranges below a limit, and keeps the first `most` of them.
    ///
    /// # Errors
    ///
    /// `AllocError` if there is no memory for them.
    #[tactic(auto, using(crate::proofs::Summing::begins, crate::proofs::Summing::goes_on, crate::proofs::Summing::ends))]
    pub fn of_missing(
        alloc: Global,
        most: usize,
        held: &Extents,
        limit: u64,
    ) -> Result<RangeSummary, AllocError>
        ensures { IfOk result (λ it. Summarizes (gaps_of held.now 0 limit) it) }
    {
        let mut ranges = RangeSummary::new(alloc, most);
        for gap in held.missing(limit) {
            ranges.add(gap.0, gap.1)?;
        }
        Ok(ranges)
    }

    /// Adds a range after the others.
    ///
    /// # Errors
    ///
    /// `AllocError` if there is no memory for it. Nothing is added then.
    #[tactic(auto, using(crate::proofs::Summing::grown, crate::proofs::Summing::full, crate::proofs::Summing::counted, crate::proofs::Summing::summed))]
    pub fn add(&mut self, start: u64, end: u64) -> Result<(), AllocError>
        ensures added { OnOk result ((all : List (ℕ × ℕ)) → Summarizes all self.old
            → Summarizes (all ++ (start, end) ∷ []) self.new) }
        ensures most { self.new.most ≡ self.old.most }
        ensures err { OnErr result ((all : List (ℕ × ℕ)) → Summarizes all self.old
            → Summarizes all self.new) }
    {
        if self.first.len() < self.most {
            self.first.push((start, end))?;
        }
        self.count = self.count.saturating_add(1);
        self.octets = self.octets.saturating_add(end.saturating_sub(start));
        Ok(())
    }

    /// Returns the first ranges.
    pub fn first(&self) -> &[(u64, u64)]
        ensures { result.now ≡ self.now.first.items }
    {
        self.first.as_slice()
    }

    /// Returns how many ranges there are; 2^64 - 1 if there are more.
    pub fn count(&self) -> u64
        ensures { result ≡ self.now.count }
    {
        self.count
    }

    /// Returns how many octets they have together; 2^64 - 1 if they have more.
    pub fn octets(&self) -> u64
        ensures { result ≡ self.now.octets }
    {
        self.octets
    }
}
