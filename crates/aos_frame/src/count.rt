//! The frame counts of a virtual channel, and what is missing between two of them (CCSDS 732.0-B-4,
//! 4.1.2.4, 4.1.2.5).
ghost use Rattle.std.specs.Prelude.{◌≡◌, ◌↔◌, ℕ, ◌+◌, ◌%◌, ◌<◌, IsTrue, Some, None, IfSome};
ghost use Rattle.aos_frame.specs.Counts.{frame_counts, counts_of, compared, AreMissing, continuity};
ghost use Rattle.aos_frame.specs.Counts.{follows};
ghost use Rattle.aos_frame.specs.declared.count.Continuity.TheVariants.{Follows};

use std::marker::Model;

/// The numbers that a frame count of 28 bits can be, 0 to 268,435,455. The count after the last is
/// 0.
pub const FRAME_COUNTS: u32 = 268_435_456;

/// The numbers that a frame count can be without the count cycle, which is its upper 4 bits: 0 to
/// 16,777,215.
pub const SHORT_COUNTS: u32 = 16_777_216;

/// Returns how many numbers the count of a frame can be, by its usage flag of the count cycle.
pub(crate) fn counts_of(cycle: bool) -> u32
    ensures { result ≡ counts_of cycle }
{
    if cycle { FRAME_COUNTS } else { SHORT_COUNTS }
}

/// Returns how many counts are missing between two counts, by all 28 bits or by the lower 24.
fn missing_between(last: u32, count: u32, all: bool) -> u32
    ensures { AreMissing (counts_of all) last count result }
{
    let counts = counts_of(all);
    (count % counts + (counts - 1 - last % counts)) % counts
}

/// The counts of the frames of one virtual channel, in order: 0, 1, .. 268,435,455, 0, ..
#[derive(Clone, Debug, Default, Drop)]
pub struct VcCounter {
    next: u32,
}

impl Model for VcCounter {
    ghost use Rattle.std.specs.Prelude.{ℕ, ◌<◌};
    ghost use Rattle.aos_frame.specs.Counts.{frame_counts};

    ghost Value = { ℕ };

    ghost view = { λ c. c.next };

    ghost invariant = { λ c. c.next < frame_counts };
}

impl VcCounter {
    /// Returns a counter that has given no count yet.
    pub fn new() -> Self
        ensures { result ≡ 0 }
    {
        VcCounter { next: 0 }
    }

    /// Returns a counter whose first count is this one modulo [`FRAME_COUNTS`]. It serves a channel
    /// whose earlier counts may still be known at the other end: so its first frame isn't taken for
    /// the next one after them.
    pub fn from_count(count: u32) -> Self
        ensures { result ≡ count % frame_counts }
    {
        VcCounter {
            next: count % FRAME_COUNTS,
        }
    }

    /// Returns the count of the next frame, below [`FRAME_COUNTS`].
    pub fn next(&mut self) -> u32
        ensures count { result ≡ self.old }
        ensures below { result < frame_counts }
        ensures after { self.new ≡ (self.old + 1) % frame_counts }
    {
        let count = self.next;
        self.next = (count + 1) % FRAME_COUNTS;
        count
    }
}

/// How a frame goes on from the last one of its virtual channel that was seen.
///
/// Counts are compared modulo [`FRAME_COUNTS`] if both frames have the usage flag of the count
/// cycle, otherwise modulo [`SHORT_COUNTS`].
#[derive(Clone, Copy, Debug, PartialEq, Eq)]
pub enum Continuity {
    /// No count is missing between the frames, or no frame was seen before.
    Follows,
    /// So many counts are missing between the frames: at least 1.
    Gap(u32),
}

/// The count of a frame, and whether it has the usage flag of the count cycle.
#[derive(Clone, Copy, Debug)]
pub struct SeenCount {
    /// The count: of 28 bits if it has the flag, otherwise of 24.
    pub count: u32,
    /// The usage flag of the count cycle.
    pub cycle: bool,
}

/// Counts the frames of one virtual channel that are missing between the frames that come.
///
/// If a multiple of the counts that are compared is lost in a row, the loss can't be seen.
#[derive(Clone, Debug, Default, Drop)]
pub struct VcMonitor {
    last: Option<SeenCount>,
}

impl Model for VcMonitor {
    ghost use Rattle.std.specs.Prelude.{Option};
    ghost use Rattle.aos_frame.specs.declared.count.SeenCount.{SeenCount};

    ghost Value = { Option SeenCount };

    ghost view = { λ m. m.last };
}

impl VcMonitor {
    /// Returns a monitor that has seen no frame yet.
    pub fn new() -> Self
        ensures { result ≡ None }
    {
        VcMonitor { last: None }
    }

    /// Returns how a frame goes on from the last one seen, by its count and its usage flag of the
    /// count cycle, as `decode` answers them.
    ///
    /// The counts are compared by 28 bits if this frame and the last one have the flag, otherwise
    /// by their lower 24.
    pub fn see(&mut self, count: u32, cycle: bool) -> Continuity
        ensures first { self.old ≡ None → result ≡ Follows }
        // The number that is missing, and no other number, decides the answer.
        ensures told { IfSome self.old (λ last. (n : ℕ) →
            AreMissing (compared last.cycle cycle) last.count count n → result ≡ continuity n) }
        ensures follows { (result ≡ Follows)
            ↔ IsTrue (follows self.old (record { count = count; cycle = cycle })) }
        ensures seen { self.new ≡ Some (record { count = count; cycle = cycle }) }
    {
        let missing = match self.last {
            None => 0,
            Some(last) => missing_between(last.count, count, last.cycle && cycle),
        };
        self.last = Some(SeenCount { count, cycle });
        if missing == 0 {
            Continuity::Follows
        } else {
            Continuity::Gap(missing)
        }
    }

    /// Returns `true` if a frame follows the last one seen, so that `see` answers
    /// [`Continuity::Follows`]. The frame is seen by this call too.
    pub fn follows(&mut self, count: u32, cycle: bool) -> bool
        ensures told { result ≡ follows self.old (record { count = count; cycle = cycle }) }
        ensures seen { self.new ≡ Some (record { count = count; cycle = cycle }) }
    {
        match self.see(count, cycle) {
            Continuity::Follows => true,
            Continuity::Gap(_) => false,
        }
    }
}
