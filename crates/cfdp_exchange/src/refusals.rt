//! Why frames of a secured link were refused, and how often.
use frame_security::FrameRefusal;
use std::cell::Cell;

/// All causes, in the order in which they are looked for.
pub const REFUSALS: [FrameRefusal; 5] = [
    FrameRefusal::Short,
    FrameRefusal::Damaged,
    FrameRefusal::UnknownSpi,
    FrameRefusal::NotAuthentic,
    FrameRefusal::Replayed,
];

/// Returns the name of a cause, in one word.
pub fn refusal_name(cause: FrameRefusal) -> &'static str {
    match cause {
        FrameRefusal::Short => "Short",
        FrameRefusal::Damaged => "Damaged",
        FrameRefusal::UnknownSpi => "UnknownSpi",
        FrameRefusal::NotAuthentic => "NotAuthentic",
        FrameRefusal::Replayed => "Replayed",
    }
}

/// How many frames of a secured link were refused for each cause. The keeper of the wire counts
/// them, and others report them to the operator.
#[derive(Drop)]
pub struct RefusalTally {
    short: Cell<u64>,
    damaged: Cell<u64>,
    unknown_spi: Cell<u64>,
    not_authentic: Cell<u64>,
    replayed: Cell<u64>,
}

impl RefusalTally {
    /// Returns a tally in which nothing was refused yet.
    pub fn new() -> RefusalTally {
        RefusalTally {
            short: Cell::new(0),
            damaged: Cell::new(0),
            unknown_spi: Cell::new(0),
            not_authentic: Cell::new(0),
            replayed: Cell::new(0),
        }
    }

    /// Returns how many frames were refused for this cause; the count stays at 2^64 - 1.
    pub fn of(&self, cause: FrameRefusal) -> u64 {
        self.cell(cause).get()
    }

    /// Counts one more for this cause.
    pub fn count(&self, cause: FrameRefusal) {
        let count = self.cell(cause);
        count.set(count.get().saturating_add(1));
    }

    fn cell(&self, cause: FrameRefusal) -> &Cell<u64> {
        match cause {
            FrameRefusal::Short => &self.short,
            FrameRefusal::Damaged => &self.damaged,
            FrameRefusal::UnknownSpi => &self.unknown_spi,
            FrameRefusal::NotAuthentic => &self.not_authentic,
            FrameRefusal::Replayed => &self.replayed,
        }
    }
}
