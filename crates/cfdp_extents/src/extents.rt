// A set of offsets in a map of ranges.
ghost use Rattle.std.specs.Prelude.{◌≡◌, ◌↔◌, ◌⊎◌, ℕ, ◌+◌, ◌-◌, ◌<◌, ◌≤◌, true, false, IsTrue};
ghost use Rattle.std.specs.Prelude.{List, OnOk, OnErr, IsOk, IfNone, IfSome};
ghost use Rattle.std.specs.FinSet as set;
ghost use Rattle.std.specs.List.{All};
ghost use Rattle.cfdp_extents.specs.Offsets.{range, missing_from, AreRangesOf, LiesIn};
ghost use Rattle.cfdp_extents.specs.Front.{IsFront};
ghost use Rattle.cfdp_extents.specs.Terms.{gaps_of, end_of, front_of, ranges_of};
ghost use Rattle.cfdp_extents.specs.Count.{gap_count, admits};

use crate::gaps::Gaps;
use crate::ranges::Ranges;
use crate::whole::{count_gaps, cut_first, drop_first, first_at, first_past, join};
use std::alloc::{AllocError, Global};
use std::collections::BTreeMap;
use std::marker::Model;

/// The parts of a file that a receiver has, or that a sender must send again.
///
/// It is a set of offsets, each of an octet from the file's start, kept as ranges. Only `insert`
/// takes memory.
#[derive(Debug, Drop)]
pub struct Extents {
    // All except the greatest, from each range's end to its start, so that the front can be cut
    // without memory.
    ranges: BTreeMap<u64, u64>,
    // The greatest, its start and its end: most offsets come after all others.
    last: Option<(u64, u64)>,
}

impl Model for Extents {
    ghost use Rattle.std.specs.Prelude.{◌≡◌, None, []};
    ghost use Rattle.std.specs.Ordering.{nat_cmp};
    ghost use Rattle.std.specs.FinSet as set;
    ghost use Rattle.std.specs.Coded.{coded_ℕ};
    ghost use Rattle.cfdp_extents.specs.Offsets.{union_of, AreApart};
    ghost use Rattle.cfdp_extents.specs.Ranges.{turned, with_last};

    ghost Value = { set.FinSet nat_cmp };

    ghost coded = { set.code coded_ℕ };

    ghost view = { λ e. union_of (with_last (turned e.ranges.entries) e.last) };

    ghost invariant = { λ e. AreApart (with_last (turned e.ranges.entries) e.last)
        × (e.last ≡ None → e.ranges.entries ≡ []) };
}

impl Extents {
    /// Returns no part of a file. It takes no memory; `alloc` serves what is added later.
    pub fn new(alloc: Global) -> Self
        ensures { result ≡ set.empty }
    {
        Extents {
            ranges: BTreeMap::new(alloc),
            last: None,
        }
    }

    /// Returns `true` if nothing of the file is held.
    pub fn is_empty(&self) -> bool
        ensures { IsTrue result ↔ (self.now ≡ set.empty) }
    {
        self.last.is_none()
    }

    /// Removes all parts.
    pub fn clear(&mut self)
        ensures { self.new ≡ set.empty }
    {
        self.ranges.clear();
        self.last = None;
    }

    /// Adds a part of the file: the offsets from `start` up to, and without, `end`, which must not
    /// be before `start`.
    ///
    /// An empty part adds none. What is held already may be added again.
    ///
    /// # Errors
    ///
    /// If there is no memory for one more range. The set is then unchanged.
    pub fn insert(&mut self, start: u64, end: u64) -> Result<(), AllocError>
        requires { start ≤ end }
        ensures ok { OnOk result (self.new ≡ set.union self.old (range start end)) }
        ensures err { OnErr result (self.new ≡ self.old) }
        // What adds no offset takes no memory.
        ensures empty { start ≡ end → IsOk result }
        ensures held { set.is_subset (range start end) self.old ≡ true →
            IsOk result × (self.new ≡ self.old) }
        // Nor does what follows the last part.
        ensures next { 0 < start → start ≡ end_of self.old → IsOk result }
    {
        if start == end {
            return Ok(());
        }
        join(&mut self.ranges, &mut self.last, start, end)
    }

    /// Returns `true` if a part of the file is held without a gap.
    ///
    /// It is if each offset from `start` up to, and without, `end` is held, also if the part is
    /// empty.
    pub fn covers(&self, start: u64, end: u64) -> bool
        requires { start ≤ end }
        ensures { result ≡ set.is_subset (range start end) self.now }
    {
        if start == end {
            return true;
        }
        match first_at(&self.ranges, self.last, end) {
            Some(range) => range.0 <= start,
            None => false,
        }
    }

    /// Returns the number of gaps before the end of the last part.
    pub fn gap_count(&self) -> usize
        ensures { result ≡ gap_count self.now }
    {
        count_gaps(&self.ranges, self.last)
    }

    /// Returns `true` if a part may be added under a limit of gaps: with it there are at most
    /// `most` gaps, or no more than without it.
    ///
    /// So a part that begins at offset 0, or touches what is held, may always be added: it makes no
    /// gap. For example, with octets 0 to 10 and 20 to 30 held, and `most` 1, a part from 30 on may
    /// be added, and a part from 40 on may not.
    pub fn admits(&self, start: u64, end: u64, most: u64) -> bool
        requires { start ≤ end }
        ensures { result ≡ admits most self.now start end }
    {
        if start == 0 || start == end {
            return true;
        }
        match first_at(&self.ranges, self.last, start) {
            Some(range) if range.0 <= end => true,
            _ => (self.gap_count() as u64) < most,
        }
    }

    /// Returns the gaps below `limit`: what is missing of the file's first `limit` octets,
    /// ascending.
    pub fn missing(&self, limit: u64) -> Gaps<'_>
        // Ascending, none empty, no two touching, and together what isn't held below the limit.
        ensures gaps { AreRangesOf (missing_from self.now 0 limit) result }
        // No other list is so.
        ensures only { (gaps : List (ℕ × ℕ)) →
            AreRangesOf (missing_from self.now 0 limit) gaps → gaps ≡ result }
        ensures is { result ≡ gaps_of self.now 0 limit }
        ensures inside { All (LiesIn 0 limit) result }
    {
        self.missing_in(0, limit)
    }

    /// Returns the gaps from `start` on and below `limit`: what is missing there, ascending.
    pub fn missing_in(&self, start: u64, limit: u64) -> Gaps<'_>
        ensures gaps { AreRangesOf (missing_from self.now start limit) result }
        ensures only { (gaps : List (ℕ × ℕ)) →
            AreRangesOf (missing_from self.now start limit) gaps → gaps ≡ result }
        ensures is { result ≡ gaps_of self.now start limit }
        // Each has at least one offset, and lies in the range asked for.
        ensures inside { All (LiesIn start limit) result }
    {
        let from = match first_past(&self.ranges, self.last, start) {
            Some(range) if range.0 <= start => range.1,
            _ => start,
        };
        Gaps::new(&self.ranges, self.last, from, limit)
    }

    /// Returns the ranges that the set is made of, ascending. It takes no memory.
    pub fn ranges(&self) -> Ranges<'_>
        // Ascending, none empty, no two touching, and together what is held.
        ensures ranges { AreRangesOf self.now result }
        // No other list is so.
        ensures is { result ≡ ranges_of self.now }
    {
        Ranges::new(&self.ranges, self.last)
    }

    /// Returns where the last part ends: one more than the greatest offset held; 0 if none is.
    pub fn end(&self) -> u64
        ensures all_before { (n : ℕ) → set.contains self.now n ≡ true → n < result }
        ensures last { 0 < result → set.contains self.now (result - 1) ≡ true }
        ensures is { result ≡ end_of self.now }
    {
        match self.last {
            Some((_, end)) => end,
            None => 0,
        }
    }

    /// Returns the first part of the file that is held, at most `max` octets of it.
    ///
    /// It is the front of the least range without a gap, as its start and its end, the end not in
    /// it; `None` if no offset is held, or `max` is 0.
    pub fn front(&self, max: u64) -> Option<(u64, u64)>
        ensures is { result ≡ front_of self.now max }
        ensures spent { IfNone result ((max ≡ 0) ⊎ (self.now ≡ set.empty)) }
        ensures front { IfSome result (λ r. IsFront self.now max r.0 r.1) }
    {
        if max == 0 {
            return None;
        }
        match first_at(&self.ranges, self.last, 0) {
            Some((start, end)) => Some((start, start + max.min(end - start))),
            None => None,
        }
    }

    /// Removes the first part, at most `max` octets of it, and returns it as `front` does.
    pub fn take_front(&mut self, max: u64) -> Option<(u64, u64)>
        ensures is { result ≡ front_of self.old max }
        ensures none { IfNone result (self.new ≡ self.old) }
        ensures spent { IfNone result ((max ≡ 0) ⊎ (self.old ≡ set.empty)) }
        ensures front { IfSome result (λ r. IsFront self.old max r.0 r.1) }
        ensures rest { IfSome result (λ r. self.new ≡ set.difference self.old (range r.0 r.1)) }
    {
        if max == 0 {
            return None;
        }
        let Some((start, end)) = first_at(&self.ranges, self.last, 0) else {
            return None;
        };
        if end - start <= max {
            drop_first(&mut self.ranges, &mut self.last, (start, end));
            return Some((start, end));
        }
        cut_first(&mut self.ranges, &mut self.last, (start, end), start + max);
        Some((start, start + max))
    }
}
