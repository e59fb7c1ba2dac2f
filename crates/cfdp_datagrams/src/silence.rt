//! For how long a peer has been silent.
use crate::pacer::SECOND;

/// Since when nothing has come and nothing was open, by the time of the link.
#[derive(Clone, Copy)]
pub struct Silence {
    // After how many seconds it is long enough; 0 for never.
    idle: u64,
    // Since when it has been silent, in nanoseconds, and whether a transaction was open when that
    // was asked last.
    quiet_since: u64,
    was_open: bool,
}

impl Silence {
    /// Returns a silence that begins now, and is long enough after so many seconds; if these are 0,
    /// never.
    pub fn new(idle: u64) -> Silence {
        Silence {
            idle,
            quiet_since: 0,
            was_open: false,
        }
    }

    /// Notes that the peer was heard at this time of the link, in nanoseconds.
    pub fn hears(&mut self, now: u64) {
        self.quiet_since = now;
    }

    /// Returns `true` if it is long enough at this time of the link, in nanoseconds. While a
    /// transaction is open, or the link is down by plan, it begins again.
    pub fn is_long(&mut self, now: u64, is_open: bool, is_frozen: bool) -> bool {
        // What is closed now was open until this turn.
        if is_open || self.was_open || is_frozen {
            self.quiet_since = now;
        }
        self.was_open = is_open;
        if is_open || is_frozen {
            return false;
        }
        let quiet = now.saturating_sub(self.quiet_since);
        self.idle > 0 && quiet >= self.idle.saturating_mul(SECOND)
    }
}
