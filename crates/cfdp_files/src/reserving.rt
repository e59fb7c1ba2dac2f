//! What a station has reserved, and what it reserves before it uses more.
ghost use Rattle.std.specs.Prelude.{◌≡◌, ◌+◌, ◌^◌, ◌<◌, ◌≤◌, ◌↔◌, ◌⊎◌, IfSome, IsNone, max};
ghost use Rattle.cfdp_files.specs.Reserving.{Accepts, Adds, Begins, Covers, first_number};

/// How many frame counts are reserved at a time.
pub const FRAMES: u64 = 1 << 20;

/// How many sequence numbers of the peer's secured frames are reserved at a time, at most. After a
/// crash so many of its frames are refused at most that were never received.
pub const ACCEPTED: u64 = 1 << 10;

/// What is reserved.
#[derive(Clone, Copy, Debug, PartialEq, Eq)]
pub struct Reserved {
    /// All transaction numbers below this one.
    pub numbers: u64,
    /// All counts of frames of both lanes below this one, not modulo 2^28.
    pub frames: u64,
    /// All sequence numbers of the peer's secured frames up to this one; `None` if none was ever
    /// accepted.
    pub accepted: Option<u64>,
}

/// With which numbers a station begins.
#[derive(Clone, Copy, Debug, PartialEq, Eq)]
pub struct Beginning {
    /// The number of its first transaction.
    pub number: u64,
    /// The count of the first frame of both lanes, not modulo 2^28.
    pub frames: u64,
}

/// What a start takes.
#[derive(Clone, Copy, Debug, PartialEq, Eq)]
pub struct Taken {
    /// With which numbers the station begins.
    pub beginning: Beginning,
    /// The first number after those that are reserved for the station.
    pub numbers_end: u64,
    /// What is reserved then.
    pub reserved: Reserved,
}

impl Reserved {
    /// What is reserved if no station has run.
    pub const NOTHING: Reserved = Reserved {
        numbers: 1,
        frames: 0,
        accepted: None,
    };

    /// Returns the same with all counts of frames below this one reserved.
    pub fn from_frame(self, least: u64) -> Reserved
        ensures { result ≡ record self { frames = max self.frames least } }
    {
        Reserved {
            frames: self.frames.max(least),
            ..self
        }
    }

    /// Returns what a start takes that reserves a number for each of `puts` puts: from the one on
    /// that is said, or otherwise after all that were reserved before and not below the least.
    /// `None` if so many numbers, or one frame more, can't be counted.
    pub fn begin(self, said: Option<u64>, least: u64, puts: u64) -> Option<Taken>
        ensures begins { IfSome result (Begins self said least puts) }
        ensures spent { IsNone result ↔ ((2 ^ 64 ≤ first_number said least self + puts)
            ⊎ (2 ^ 64 ≤ self.frames + 1)) }
    {
        let number = said.unwrap_or(self.numbers.max(least));
        let numbers_end = number.checked_add(puts)?;
        // The peer may await the count after the last one that was reserved.
        let frames = self.frames.checked_add(1)?;
        Some(Taken {
            beginning: Beginning { number, frames },
            numbers_end,
            reserved: Reserved {
                numbers: numbers_end.max(self.numbers),
                frames: frames.saturating_add(FRAMES),
                ..self
            },
        })
    }

    /// Returns what must be reserved before a frame of this count leaves: the same as now if the
    /// count is below what is reserved. `None` if no more can be counted.
    pub fn covering(self, count: u64) -> Option<Reserved>
        ensures covers { IfSome result (Covers self count) }
        ensures spent { IsNone result ↔ ((self.frames ≤ count) × (2 ^ 64 ≤ count + 1)) }
    {
        if count < self.frames {
            return Some(self);
        }
        let _next = count.checked_add(1)?;
        Some(Reserved {
            frames: count.saturating_add(FRAMES),
            ..self
        })
    }

    /// Returns what must be reserved before `more` numbers are used after those below `end`. `None`
    /// if so many can't be counted.
    pub fn adding(self, end: u64, more: u64) -> Option<Reserved>
        ensures adds { IfSome result (Adds self (end + more)) }
        ensures spent { IsNone result ↔ (2 ^ 64 ≤ end + more) }
    {
        Some(Reserved {
            numbers: end.checked_add(more)?.max(self.numbers),
            ..self
        })
    }

    /// Returns what must be reserved before the peer's frame with this sequence number is handed
    /// on: the same as now if the number is reserved, and otherwise `ahead` more.
    pub fn accepting(self, number: u64, ahead: u64) -> Reserved
        ensures { Accepts self number result }
    {
        match self.accepted {
            Some(reserved) if number <= reserved => self,
            _ => Reserved {
                accepted: Some(number.saturating_add(ahead)),
                ..self
            },
        }
    }
}
