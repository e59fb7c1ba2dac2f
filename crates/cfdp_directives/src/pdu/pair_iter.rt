ghost use Rattle.std.specs.Prelude.{◌≡◌, Some, length, drop, IfSome};
ghost use Rattle.std.specs.Iterator.{at_most, item_count, UpTo, YieldsFirst};
ghost use Rattle.std.specs.Iterator.SizeHint.{IsWithinCount};

use crate::pdu::pairs::SegmentRequests;
use std::marker::Model;

/// The requested ranges of a NAK one by one, each with the offsets where it starts and ends.
/// Contracts see it as the list of the ranges that are left.
#[derive(Debug, Drop)]
pub struct PairIter<'a> {
    pairs: SegmentRequests<'a>,
    // How many of them were given.
    given: usize,
}

impl<'a> Model for PairIter<'a> {
    ghost use Rattle.std.specs.Prelude.{List, ℕ, drop};

    ghost Value = { List (ℕ × ℕ) };

    ghost view = { λ i. drop i.given i.pairs };
}

impl<'a> PairIter<'a> {
    /// Returns an iterator over these pairs.
    pub(crate) fn over(pairs: SegmentRequests<'a>) -> Self
        ensures { result ≡ pairs.entry }
    {
        PairIter { pairs, given: 0 }
    }
}

impl<'a> Iterator for PairIter<'a> {
    type Item = (u64, u64);

    ghost next_gives = { YieldsFirst (λ i. i) };

    ghost remaining = { item_count (λ i. i) };

    fn next(&mut self) -> Option<(u64, u64)> {
        if self.given >= self.pairs.len() {
            return None;
        }
        let pair = self.pairs.at(self.given);
        self.given += 1;
        Some(pair)
    }

    fn size_hint(&self) -> (usize, Option<usize>)
        ensures lower { IsWithinCount result.0 (at_most (length self.now)) }
        ensures upper { IfSome result.1 (UpTo (at_most (length self.now))) }
        ensures exact { (result.0 ≡ length self.now) × (result.1 ≡ Some result.0) }
    {
        let left = self.pairs.len().saturating_sub(self.given);
        (left, Some(left))
    }
}
