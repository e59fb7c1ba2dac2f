//! What passed over a link, second by second.
use std::alloc::Global;
use std::collections::VecDeque;

/// So many seconds are kept: ten minutes.
pub const MOST_SAMPLES: usize = 600;

/// Frames of a link, since the start of the station or in a second.
#[derive(Clone, Copy)]
pub struct FrameCounts {
    pub sent: u64,
    pub received: u64,
    /// Found missing by the counts in their headers.
    pub missing: u64,
}

impl FrameCounts {
    /// No frame.
    pub const NONE: FrameCounts = FrameCounts {
        sent: 0,
        received: 0,
        missing: 0,
    };

    /// What was counted since `before`.
    fn since(self, before: FrameCounts) -> FrameCounts {
        FrameCounts {
            sent: self.sent.saturating_sub(before.sent),
            received: self.received.saturating_sub(before.received),
            missing: self.missing.saturating_sub(before.missing),
        }
    }
}

/// What passed in the last ten minutes, second by second. If there is no memory for a second, it
/// is left out.
#[derive(Drop)]
pub struct Samples {
    each: VecDeque<FrameCounts>,
    second: u64,
    before: FrameCounts,
}

impl Samples {
    /// Returns a list of no seconds, before the first one.
    pub fn new(alloc: Global) -> Samples {
        Samples {
            each: VecDeque::new(alloc),
            second: 0,
            before: FrameCounts::NONE,
        }
    }

    /// Returns what passed in each second, the oldest first.
    pub fn each(&self) -> &VecDeque<FrameCounts> {
        &self.each
    }

    /// Returns the second since the start that was noted last.
    pub fn second(&self) -> u64 {
        self.second
    }

    /// Notes what was counted up to this second since the start. If seconds were left out, what
    /// passed in them counts for the last one.
    pub fn notes(&mut self, second: u64, counted: FrameCounts) {
        if second <= self.second {
            return;
        }
        let skipped = (second - self.second - 1).min(MOST_SAMPLES as u64);
        for _second in 0..skipped {
            self.adds(FrameCounts::NONE);
        }
        self.adds(counted.since(self.before));
        self.second = second;
        self.before = counted;
    }

    fn adds(&mut self, sample: FrameCounts) {
        if self.each.len() >= MOST_SAMPLES {
            let _ = self.each.pop_front();
        }
        let _ = self.each.push_back(sample);
    }
}
