// The gaps between held ranges, one after another.
ghost use Rattle.std.specs.Prelude.{◌≡◌, ℕ, List, [], ◌∷◌, IfNone, IfSome};
ghost use Rattle.cfdp_extents.specs.Offsets.{AreApart};
ghost use Rattle.std.specs.Iterator.{YieldsFirst, item_count};
ghost use Rattle.cfdp_extents.specs.Ranges.{turned, others_of, with_last, behind, gaps_between};

use std::collections::BTreeMap;
use std::collections::btree_map::Range;
use std::marker::Model;
use std::ops::Bound;

/// The gaps in what is held of a file, one after another, ascending.
///
/// Each is its start and its end, the end not in it. Going over them takes no memory.
#[derive(Drop)]
pub struct Gaps<'a> {
    // After `start`, ascending, from each range's end to its start. `None` if the set is one range
    // at most, as mostly: then no place in the map is looked for.
    ranges: Option<Range<'a, u64, u64>>,
    // After these.
    last: Option<(u64, u64)>,
    start: u64,
    limit: u64,
}

impl<'a> Model for Gaps<'a> {
    ghost Value = { List (ℕ × ℕ) };

    ghost view = { λ g. gaps_between g.start g.limit (with_last (others_of g.ranges) g.last) };
}

/// Returns the range, if it ends after an offset.
fn ending_behind(range: Option<(u64, u64)>, offset: u64) -> Option<(u64, u64)>
    ensures { with_last [] result ≡ behind offset (with_last [] range) }
{
    match range {
        Some((_, end)) if end <= offset => None,
        _ => range,
    }
}

/// Takes the next range, which is the last one if no others are left.
fn next_range(
    ranges: &mut Option<Range<'_, u64, u64>>,
    last: &mut Option<(u64, u64)>,
) -> Option<(u64, u64)>
    ensures some { IfSome result (λ r. with_last (others_of ranges.old) last.old
        ≡ r ∷ with_last (others_of ranges.new) last.new) }
    ensures none { IfNone result (with_last (others_of ranges.old) last.old ≡ []) }
{
    let Some(others) = ranges else {
        return last.take();
    };
    match others.next() {
        Some((end, start)) => Some((*start, *end)),
        None => last.take(),
    }
}

impl<'a> Gaps<'a> {
    /// Returns the gaps between the ranges that end after `start`.
    pub(crate) fn new(
        ranges: &'a BTreeMap<u64, u64>,
        last: Option<(u64, u64)>,
        start: u64,
        limit: u64,
    ) -> Self
        requires { AreApart (with_last (turned ranges.now.entries) last) }
        ensures { result ≡ gaps_between start limit
            (behind start (with_last (turned ranges.now.entries) last)) }
    {
        let others = if ranges.is_empty() {
            None
        } else {
            Some(ranges.range((Bound::Excluded(start), Bound::Unbounded)))
        };
        Gaps {
            ranges: others,
            last: ending_behind(last, start),
            start,
            limit,
        }
    }
}

impl<'a> Iterator for Gaps<'a> {
    type Item = (u64, u64);

    ghost next_gives = { YieldsFirst (λ rest. rest) };

    ghost remaining = { item_count (λ rest. rest) };

    fn next(&mut self) -> Option<(u64, u64)> {
        let start = self.start;
        if self.limit <= start {
            return None;
        }
        match next_range(&mut self.ranges, &mut self.last) {
            Some((behind, end)) if behind < self.limit => {
                self.start = end;
                Some((start, behind))
            }
            _ => {
                self.start = self.limit;
                Some((start, self.limit))
            }
        }
    }
}
