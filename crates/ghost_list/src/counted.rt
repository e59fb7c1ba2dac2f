ghost use Rattle.std.specs.Prelude.{◌≡◌, ◌+◌, ◌<◌, ◌^◌, [], ◌∷◌, ◌++◌, length};

use crate::GhostList;
use std::marker::Model;

/// A list of what was put on it, the latest last. The program keeps its length, and no more.
#[derive(Drop)]
pub struct Counted<T> {
    past: GhostList<T>,
    count: u64,
}

impl<T> Model for Counted<T> {
    ghost use Rattle.std.specs.Prelude.{◌≡◌, List, length};

    ghost Value = { List T };

    ghost view = { λ c. c.past };

    ghost invariant = { λ c. c.count ≡ length c.past };
}

impl<T> Counted<T> {
    /// Returns a list on which nothing was put.
    pub fn new() -> Self
        ensures { result ≡ [] }
    {
        Counted {
            past: GhostList::new(),
            count: 0,
        }
    }

    /// Returns how many values were put on it.
    pub fn count(&self) -> u64
        ensures { result ≡ length self.now }
    {
        self.count
    }

    /// Puts values on it, in turn. 64 bits must be able to count them together with the values
    /// before.
    pub fn put_all(&mut self, values: &[T])
        requires { length self.old + length values.now < 2 ^ 64 }
        ensures { self.new ≡ self.old ++ values.now }
    {
        self.past.put_all(values);
        self.count += values.len() as u64;
    }

    /// Puts a value on it.
    pub fn put(&mut self, value: &T)
        requires { length self.old + 1 < 2 ^ 64 }
        ensures { self.new ≡ self.old ++ value.now ∷ [] }
    {
        self.past.put(value);
        self.count += 1;
    }
}
