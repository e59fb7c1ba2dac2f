//! The time of a link, which is the time of its station.
ghost use Rattle.std.specs.Prelude.{◌≡◌, ◌+◌, ◌-◌, ◌^◌, ◌<◌, ◌≤◌, if◌then◌else◌, min, max};

use crate::pacer::SECOND;

/// By how much the time of the link goes on at once, at most, in nanoseconds. More passes between
/// two looks at the clock only if the process didn't run: it was stopped, or its machine slept.
/// What the peer sent meanwhile couldn't come, so no timer may expire because of it.
pub const MOST_STEP: u64 = 10 * SECOND;

/// The time of a link, in nanoseconds. It goes with the clock of the machine, but stands still
/// while the link is down by plan or the process doesn't run, and goes on from where it stood.
#[derive(Clone, Copy)]
pub struct LinkClock {
    /// What the clock showed when it was looked at last, in nanoseconds since the start.
    seen: u64,
    /// How much of that passed on the link.
    passed: u64,
}

impl LinkClock {
    /// At the start.
    pub const START: LinkClock = LinkClock { seen: 0, passed: 0 };

    /// Returns the time of the link, now that the clock shows this, and the link is down by plan or
    /// not. A clock that goes back doesn't change it.
    pub fn at(&mut self, now: u64, is_frozen: bool) -> u64
        ensures seen { self.new.seen ≡ max self.old.seen now }
        ensures passed { self.old.passed + MOST_STEP < 2 ^ 64 → self.new.passed ≡ self.old.passed
            + (if is_frozen then 0 else min (now - self.old.seen) MOST_STEP) }
        ensures forward { self.old.passed ≤ self.new.passed }
        ensures told { result ≡ self.new.passed }
    {
        let step = if is_frozen {
            0
        } else {
            now.saturating_sub(self.seen).min(MOST_STEP)
        };
        self.seen = self.seen.max(now);
        self.passed = self.passed.saturating_add(step);
        self.passed
    }
}
