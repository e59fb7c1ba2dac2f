//! The unit of the time of a station.
ghost use Rattle.std.specs.Prelude.{◌<◌};

use crate::pacer::SECOND;

/// A millisecond, in nanoseconds.
pub const MILLISECOND: u64 = 1_000_000;

/// The longest wait, in nanoseconds, if timers run in milliseconds: so late one fires at most.
const MOST_REST: u64 = 50 * MILLISECOND;

/// The unit of the time of a station, in which its timers are set.
#[derive(Clone, Copy, PartialEq, Eq)]
pub enum Unit {
    /// Whole seconds: a timer fires less than a second late.
    Seconds,
    /// Whole milliseconds: a timer fires at most 50 milliseconds late.
    Milliseconds,
}

impl Unit {
    /// Returns how many nanoseconds it has.
    pub fn nanoseconds(self) -> u64
        ensures { 0 < result }
    {
        match self {
            Unit::Seconds => SECOND,
            Unit::Milliseconds => MILLISECOND,
        }
    }

    /// Returns how long a wait lasts at most that begins at this time: the times at which it ends
    /// lie a second apart, or 50 milliseconds.
    pub fn longest_wait(self, now: u64) -> u64
        ensures { 0 < result }
    {
        match self {
            Unit::Seconds => SECOND - now % SECOND,
            Unit::Milliseconds => MOST_REST - now % MOST_REST,
        }
    }
}
