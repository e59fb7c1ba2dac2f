// The held ranges, one after another.
ghost use Rattle.std.specs.Prelude.{◌≡◌, ℕ, List};
ghost use Rattle.std.specs.Iterator.{YieldsFirst, item_count};
ghost use Rattle.cfdp_extents.specs.Offsets.{AreApart};
ghost use Rattle.cfdp_extents.specs.Ranges.{turned, others_of, with_last};

use std::collections::BTreeMap;
use std::collections::btree_map::Range;
use std::marker::Model;

/// The ranges that a set of offsets is made of, one after another, ascending.
///
/// Each is its start and its end, the end not in it. Going over them takes no memory.
#[derive(Drop)]
pub struct Ranges<'a> {
    // All but the greatest. `None` if there are none.
    others: Option<Range<'a, u64, u64>>,
    last: Option<(u64, u64)>,
}

impl<'a> Model for Ranges<'a> {
    ghost Value = { List (ℕ × ℕ) };

    ghost view = { λ r. with_last (others_of r.others) r.last };
}

impl<'a> Ranges<'a> {
    /// Returns these ranges, and the greatest one after them.
    pub(crate) fn new(ranges: &'a BTreeMap<u64, u64>, last: Option<(u64, u64)>) -> Self
        requires { AreApart (with_last (turned ranges.now.entries) last) }
        ensures { result ≡ with_last (turned ranges.now.entries) last }
    {
        let others = if ranges.is_empty() {
            None
        } else {
            Some(ranges.range(..))
        };
        Ranges { others, last }
    }
}

impl<'a> Iterator for Ranges<'a> {
    type Item = (u64, u64);

    ghost next_gives = { YieldsFirst (λ rest. rest) };

    ghost remaining = { item_count (λ rest. rest) };

    fn next(&mut self) -> Option<(u64, u64)> {
        let Some(others) = &mut self.others else {
            return self.last.take();
        };
        match others.next() {
            Some((end, start)) => Some((*start, *end)),
            None => self.last.take(),
        }
    }
}
