ghost use Rattle.std.specs.Prelude.{◌≡◌};

use std::marker::Model;

/// Ranges of offsets of a file, or of numbers of transactions. Each is a start and an end, which is
/// one more than the last number in the range. Contracts see them as the list of these pairs.
#[derive(Debug, Drop)]
pub struct RangeList {
    ranges: Vec<(u64, u64)>,
}

impl Model for RangeList {
    ghost use Rattle.std.specs.Prelude.{List, ℕ};

    ghost Value = { List (ℕ × ℕ) };

    ghost view = { λ r. r.ranges.items };
}

impl RangeList {
    /// Returns these ranges. Allocates nothing.
    pub fn from_vec(ranges: Vec<(u64, u64)>) -> Self
        ensures { result ≡ ranges.items }
    {
        RangeList { ranges }
    }

    /// Returns the ranges, borrowed.
    pub fn as_slice(&self) -> &[(u64, u64)]
        ensures { result.now ≡ self.now }
    {
        self.ranges.as_slice()
    }
}
