//! How fast frames leave: at most so many a second, and a few at once.
ghost use Rattle.std.specs.Prelude.{◌≡◌, ◌+◌, ◌-◌, ◌*◌, ◌/◌, ◌^◌, ◌≤◌, ◌<◌, ◌↔◌, max};
ghost use Rattle.cfdp_datagrams.specs.Pacer.{KeepsRate, Leaves, time_at};

/// A second, in nanoseconds.
pub const SECOND: u64 = 1_000_000_000;

/// Says when a frame may leave, so that at most so many do in a second. After a pause a few may
/// leave at once: as many as otherwise leave in four milliseconds, and four at least. All times are
/// in nanoseconds since the start.
#[derive(Clone, Copy)]
pub struct Pacer {
    /// How long a frame takes; 0 if any number may leave.
    frame_time: u64,
    /// By how much frames may be ahead of their times.
    slack: u64,
    /// When the next frame is to leave, if none is ahead.
    due: u64,
}

impl Pacer {
    /// Returns a pacer of at most `rate` frames a second, up to 1,000,000; if it is 0, of any
    /// number.
    pub fn new(rate: u64) -> Pacer
        ensures frame_time { result.frame_time ≡ time_at rate }
        ensures slack { result.slack ≤ result.frame_time * (3 + rate / 250) }
    {
        let frame_time = if rate == 0 { 0 } else { SECOND / rate };
        Pacer {
            frame_time,
            slack: frame_time.saturating_mul(3 + rate / 250),
            due: 0,
        }
    }

    /// Returns how long it is from this time on until a frame may leave; 0 if one may now.
    pub fn wait(&self, now: u64) -> u64
        ensures wait { result ≡ self.now.due - self.now.slack - now }
        ensures may { (result ≡ 0) ↔ (self.now.due ≤ now + self.now.slack) }
    {
        self.due.saturating_sub(self.slack).saturating_sub(now)
    }

    /// Notes that a frame leaves at this time: the next one is due a frame's time after it, or
    /// after the time for which it was due, whichever comes last.
    pub fn passes(&mut self, now: u64)
        ensures { max self.old.due now + self.old.frame_time < 2 ^ 64 →
            self.old.due ≤ now + self.old.slack → Leaves now self.old self.new }
    {
        self.due = self.due.max(now).saturating_add(self.frame_time);
    }
}

/// However many frames leave, each when it might, the last one does so no sooner after the first
/// than all between them take at the rate, except for the slack.
pub fn a_rate_is_kept()
    ensures { KeepsRate }
{}
