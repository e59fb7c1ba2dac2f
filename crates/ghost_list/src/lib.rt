//! Lists that only clauses see: they take no memory for what was put on them.
//!
//! A clause speaks of what a program has done since it began, for example of each file that it
//! took. If the program kept that list, it would take memory without end, and no code reads it. On
//! a `GhostList` the list is there for clauses, and the program keeps one octet of it.
//!
//! ```text
//! let mut taken = GhostList::new();
//! taken.put(&3u8);
//! taken.put_all(&[5, 8]);
//! // In a clause `taken` is now the list of 3, 5 and 8.
//! ```
//!
//! Tested by `tests/bindings.py`, through the crates above.
#![tactic(auto)]

ghost use Rattle.std.specs.Prelude.{◌≡◌, List, [], ◌∷◌, ◌++◌};

mod counted;

pub use counted::Counted;
use std::fmt::{self, Debug, Formatter};
use std::marker::Model;
use std::snapshot::Snapshot;

/// A list of what was put on it, the latest last. It takes one octet, however much was put on it.
#[derive(Drop)]
#[cycle(list)]
pub struct GhostList<T> {
    latest: Latest<T>,
}

/// The latest value, and the list before it, as clauses see them.
#[derive(Drop)]
#[cycle(list)]
enum Latest<T> {
    Nothing,
    Put(Snapshot<T>, Snapshot<GhostList<T>>),
}

impl<T> Model for GhostList<T> {
    ghost use Rattle.std.specs.Prelude.{List, length};
    ghost use Rattle.std.proofs.Common.{arith, length-append};

    ghost Value = { List T };

    ghost use Rattle.ghost_list.specs.GhostList.{list_of};

    ghost view = { λ p. list_of p.latest };

    ghost size = { length };

    ghost size_decreases = { λ p h. Prim.grind (arith, length-append) };
}

impl<T> GhostList<T> {
    /// Returns a list on which nothing was put.
    pub fn new() -> Self
        ensures { result ≡ [] }
    {
        GhostList {
            latest: Latest::Nothing,
        }
    }

    /// Returns a list of these values, the latest last; empty if there are none.
    pub fn of(values: &[T]) -> Self
        ensures { result ≡ values.now }
    {
        let mut past = GhostList::new();
        past.put_all(values);
        past
    }

    /// Puts a value on it.
    pub fn put(&mut self, value: &T)
        ensures { self.new ≡ self.old ++ value.now ∷ [] }
    {
        let before = Snapshot::of(self);
        *self = GhostList {
            latest: Latest::Put(Snapshot::of(value), before),
        };
    }

    /// Puts values on it, in turn.
    pub fn put_all(&mut self, values: &[T])
        ensures { self.new ≡ self.old ++ values.now }
    {
        for value in values {
            self.put(value);
        }
    }
}

/// Nothing is known of what was put on it.
impl<T> Debug for GhostList<T> {
    fn fmt<W: fmt::Write>(&self, f: &mut Formatter<W>) -> fmt::Result {
        f.write_str("GhostList")
    }
}

#[cfg(test)]
mod tests {
    use super::GhostList;
    use std::mem::size_of;

    #[test]
    fn a_ghost_list_takes_one_octet(rt: HostRuntime) {
        let mut past = GhostList::new();
        past.put(&3u64);
        past.put_all(&[5, 8]);
        assert_eq!(rt; size_of::<GhostList<u64>>(), 1);
    }
}
