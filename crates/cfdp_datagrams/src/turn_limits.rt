//! How much a turn takes of what comes.
ghost use Rattle.std.specs.Prelude.{◌≡◌, ◌⊎◌, ◌-◌, ◌<◌, ◌≤◌, ◌↔◌, false, true};

use crate::unit::MILLISECOND;

/// The most datagrams that a turn takes, so that one that is flooded still sends.
const MOST_IN_TURN: u32 = 64;

/// The time, in nanoseconds, after which a turn takes no more: files are published meanwhile.
const MOST_TURN_TIME: u64 = 10 * MILLISECOND;

/// If so many datagrams came in a turn before none was left, the peer sends many, and more come
/// soon.
const MANY: u32 = 4;

/// What came in a turn, and whether it may wait for more.
#[derive(Clone, Copy)]
pub struct TurnLimits {
    // How many datagrams came in this turn, when the first of them did, and whether it has sent or
    // waited in it.
    came: u32,
    came_first: u64,
    has_sent: bool,
    // Whether nothing waited when the turn before ended, and whether many came in that.
    is_drained: bool,
    comes_more: bool,
}

impl TurnLimits {
    /// The first turn, which doesn't wait.
    pub const START: TurnLimits = TurnLimits {
        came: 0,
        came_first: 0,
        has_sent: true,
        is_drained: false,
        comes_more: false,
    };

    /// Returns `true` if enough was taken in this turn, at this time: 64 datagrams, or what came in
    /// 10 milliseconds.
    pub fn has_enough(&self, now: u64) -> bool
        ensures { (result ≡ true) ↔ ((64 ≤ self.now.came)
            ⊎ ((0 < self.now.came) × (10000000 ≤ now - self.now.came_first))) }
    {
        self.came >= MOST_IN_TURN
            || self.came > 0 && now.saturating_sub(self.came_first) >= MOST_TURN_TIME
    }

    /// Notes that a datagram arrived at this time, or that the network reported a lost one.
    pub fn counts(&mut self, now: u64) {
        if self.came == 0 {
            self.came_first = now;
        }
        self.came = self.came.saturating_add(1);
    }

    /// Notes that something was sent.
    pub fn sends(&mut self) {
        self.has_sent = true;
    }

    /// Notes that the turn ends: nothing waits, or enough was taken in this turn.
    pub fn ends(&mut self, is_drained: bool) {
        self.is_drained = is_drained;
        self.comes_more = is_drained && self.came >= MANY;
        self.came = 0;
        self.has_sent = false;
    }

    /// Returns `true` if nothing was sent and nothing came in this turn.
    pub fn is_idle(&self) -> bool
        ensures { (result ≡ true) ↔ ((self.now.has_sent ≡ false) × (self.now.came ≡ 0)) }
    {
        !self.has_sent && self.came == 0
    }

    /// Returns `true` if nothing waited when the turn before ended, and nothing was sent since: it
    /// waits then, and doesn't ask once more whether something does.
    pub fn may_wait(&self) -> bool {
        self.is_drained && self.is_idle()
    }

    /// Notes that it waits, for which it counts as having sent: it waits once in a turn.
    pub fn waits(&mut self) {
        self.is_drained = false;
        self.has_sent = true;
    }

    /// Returns `true` if many came in the turn before, so that more come soon.
    pub fn comes_more(&self) -> bool {
        self.comes_more
    }
}
