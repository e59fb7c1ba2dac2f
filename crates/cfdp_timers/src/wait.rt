ghost use Rattle.std.specs.Prelude.{◌≡◌};
ghost use Rattle.cfdp_timers.specs.Waits as waiting;
ghost use Rattle.cfdp_timers.specs.Waits.{deadline_by, wait_by};

use crate::Kind;

/// What a transaction asks of one of its timers.
#[derive(Clone, Copy, Debug, PartialEq, Eq)]
pub enum Wait {
    /// It isn't waited for: the timer is cleared.
    Clear,
    /// It is waited for: an armed timer keeps its deadline; any other is armed, due so many units
    /// from now.
    Keep(u32),
    /// It is waited for from now on: the timer is armed again, due so many units from now.
    Anew(u32),
}

impl Wait {
    /// Returns what is asked of a timer that a transaction waits for or not, and that it arms again
    /// or not. The duration is in units of the clock.
    pub fn of(waits: bool, anew: bool, duration: u32) -> Wait
        ensures { result ≡ wait_by waits anew duration }
    {
        match (waits, anew) {
            (false, _) => Wait::Clear,
            (true, false) => Wait::Keep(duration),
            (true, true) => Wait::Anew(duration),
        }
    }

    // Returns the deadline that a timer gets, at a time.
    pub(crate) fn deadline(self, now: u64, old: Option<u64>) -> Option<u64>
        ensures { result ≡ deadline_by now self old }
    {
        match (self, old) {
            (Wait::Clear, _) => None,
            (Wait::Keep(_), Some(at)) => Some(at),
            (Wait::Keep(duration), None) | (Wait::Anew(duration), _) => {
                Some(now.saturating_add(u64::from(duration)))
            }
        }
    }
}

/// Returns `true` if a timer is the one that a step arms again, if it arms one.
pub fn is_anew(anew: Option<Kind>, kind: Kind) -> bool
    ensures { result ≡ waiting.is_anew anew kind }
{
    matches!(
        (anew, kind),
        (Some(Kind::EofAck), Kind::EofAck)
            | (Some(Kind::Nak), Kind::Nak)
            | (Some(Kind::FinishedAck), Kind::FinishedAck)
            | (Some(Kind::Inactivity), Kind::Inactivity)
    )
}

/// What a transaction asks of each of its timers.
#[derive(Clone, Copy, Debug, PartialEq, Eq)]
pub struct Waits {
    pub eof_ack: Wait,
    pub nak: Wait,
    pub finished_ack: Wait,
    pub inactivity: Wait,
}
