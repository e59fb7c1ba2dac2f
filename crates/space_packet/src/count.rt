//! Sequence counts, modulo 16,384 (CCSDS 133.0-B-2, 4.1.3.4.3).
ghost use Rattle.std.specs.Prelude.{◌≡◌, ◌+◌, ◌%◌, ◌<◌, Some, None, IfSome};

use std::marker::Model;

/// The numbers that a sequence count can be, 0 to 16,383. The count after the last is 0.
pub const SEQUENCE_COUNTS: u16 = 16_384;

/// The sequence counts of the packets of one identifier, in order: 0, 1, .. 16,383, 0, ..
#[derive(Clone, Debug, Default, Drop)]
pub struct Counter {
    next: u16,
}

impl Model for Counter {
    ghost use Rattle.std.specs.Prelude.{ℕ, ◌<◌};

    ghost Value = { ℕ };

    ghost view = { λ c. c.next };

    ghost invariant = { λ c. c.next < 16384 };
}

impl Counter {
    /// Returns a counter that has given no count yet.
    pub fn new() -> Self
        ensures { result ≡ 0 }
    {
        Counter { next: 0 }
    }

    /// Returns the next count, 0 to 16,383.
    pub fn next(&mut self) -> u16
        ensures count { result ≡ self.old }
        ensures below { result < 16384 }
        ensures after { self.new ≡ (self.old + 1) % 16384 }
    {
        let count = self.next;
        self.next = (count + 1) % SEQUENCE_COUNTS;
        count
    }
}

/// Counts the packets that are missing between the packets that come.
#[derive(Clone, Debug, Default, Drop)]
pub struct Watch {
    last: Option<u16>,
}

impl Model for Watch {
    ghost use Rattle.std.specs.Prelude.{ℕ, ◌<◌, Option};
    ghost use Rattle.std.specs.Option.{ForSome};

    ghost Value = { Option ℕ };

    ghost view = { λ w. w.last };

    ghost invariant = { λ w. ForSome w.last (λ n. n < 16384) };
}

impl Watch {
    /// Returns a watch that has seen no packet yet.
    pub fn new() -> Self
        ensures { result ≡ None }
    {
        Watch { last: None }
    }

    /// Returns how many packets are missing between the last one seen and one with this count,
    /// modulo [`SEQUENCE_COUNTS`]; 0 if no packet was seen before. The count must be below that, as
    /// a count that `decode` answers is.
    pub fn see(&mut self, count: u16) -> u16
        requires { count < 16384 }
        ensures first { self.old ≡ None → result ≡ 0 }
        ensures missing { IfSome self.old (λ last. (last + 1 + result) % 16384 ≡ count) }
        ensures below { result < 16384 }
        ensures seen { self.new ≡ Some count }
    {
        let missing = match self.last {
            None => 0,
            Some(last) => (count + (SEQUENCE_COUNTS - 1 - last)) % SEQUENCE_COUNTS,
        };
        self.last = Some(count);
        missing
    }
}
