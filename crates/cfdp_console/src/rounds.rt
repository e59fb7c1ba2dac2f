//! The rounds of NAKs of a transaction.
ghost use Rattle.std.specs.Prelude.{◌↔◌, ◌≡◌, IsTrue};
ghost use Rattle.cfdp_console.specs.Rounds as rounds;
ghost use Rattle.cfdp_console.specs.Rounds.{AsksAlike, GoesOn};

use crate::ranges::RangeSummary;
use std::alloc::{AllocError, Global};
use std::collections::VecDeque;

/// So many rounds are kept of a transaction: the last ones.
const MOST_ROUNDS: usize = 16;

/// So many ranges are kept of a round: the first ones.
const MOST_ASKED: usize = 8;

/// A NAK that was sent or received (CCSDS 727.0-B-5, 5.2.6).
#[derive(Drop)]
pub struct Nak {
    /// The offsets at which its scope starts and ends.
    pub start: u64,
    pub end: u64,
    /// Whether it requests Metadata.
    pub has_metadata: bool,
    /// The ranges of the file that it requests.
    pub requests: Vec<(u64, u64)>,
}

/// NAKs whose scopes follow each other: what was missing at one time.
#[derive(Drop)]
pub struct Round {
    /// The first one of its transaction is 1.
    pub number: u64,
    /// When its first NAK was sent or received, in milliseconds since 1970.
    pub time: u64,
    /// How many NAKs it has.
    pub naks: u64,
    /// Where the scope of its first NAK starts, and where that of its last one ends.
    pub start: u64,
    pub end: u64,
    /// Whether Metadata were requested.
    pub has_metadata: bool,
    /// The ranges of the file that were requested.
    pub asked: RangeSummary,
    /// How many rounds in a row, up to the one before, requested as many octets as that one.
    before: u64,
}

impl Round {
    /// Returns `true` if a NAK of this scope belongs to the round: its scope starts where the
    /// round's ends, or after that. The scope of a round's first NAK may start anywhere.
    fn goes_on(&self, start: u64) -> bool
        ensures { IsTrue result ↔ GoesOn self.now start }
    {
        0 < start && self.end <= start
    }

    /// Returns `true` if as much was requested as in another round: nothing new was received
    /// between them.
    fn is_like(&self, other: &Round) -> bool
        ensures { IsTrue result ↔ AsksAlike self.now other.now }
    {
        self.asked.octets() == other.asked.octets() && self.has_metadata == other.has_metadata
    }
}

/// The rounds of NAKs of a transaction: the last 16, and how many there were. If there is no memory
/// for what a NAK requests, less is known.
#[derive(Drop)]
pub struct Rounds {
    alloc: Global,
    last: VecDeque<Round>,
    count: u64,
    naks: u64,
    // Whether rounds in a row are counted from 0 on, and none was since.
    is_anew: bool,
}

impl Rounds {
    /// Returns no rounds.
    pub fn new(alloc: Global) -> Rounds {
        Rounds {
            alloc,
            last: VecDeque::new(alloc),
            count: 0,
            naks: 0,
            is_anew: true,
        }
    }

    /// Returns the last rounds, the first one first.
    pub fn last(&self) -> &VecDeque<Round> {
        &self.last
    }

    /// Returns how many rounds there were.
    pub fn count(&self) -> u64 {
        self.count
    }

    /// Returns how many NAKs they had.
    pub fn naks(&self) -> u64 {
        self.naks
    }

    /// Returns how many rounds in a row, up to the last one, requested as much as that, since they
    /// are counted; 0 if there was none.
    pub fn alike(&self) -> u64 {
        let count = self.last.len();
        if self.is_anew || count < 2 {
            return u64::from(!self.is_anew);
        }
        match (self.last.get(count - 1), self.last.get(count - 2)) {
            (Some(last), Some(other)) => alike_count(last.is_like(other), last.before),
            _ => 0,
        }
    }

    /// Counts rounds in a row from 0 on again.
    pub fn counts_anew(&mut self) {
        self.is_anew = true;
    }

    /// Notes a NAK that was sent or received at this time, in milliseconds since 1970.
    pub fn notes(&mut self, nak: &Nak, time: u64) {
        self.naks = self.naks.saturating_add(1);
        let is_more = match self.last.back() {
            Some(round) => round.goes_on(nak.start),
            None => false,
        };
        if !is_more {
            self.begins(nak.start, time);
        }
        if let Some(round) = self.last.back_mut() {
            round.naks = round.naks.saturating_add(1);
            round.end = nak.end;
            round.has_metadata |= nak.has_metadata;
            let _ = add_all(&mut round.asked, nak.requests.as_slice());
        }
    }

    /// Begins a round. If there is no memory for it, the last one goes on.
    fn begins(&mut self, start: u64, time: u64) {
        let before = self.alike();
        self.is_anew = false;
        self.count = self.count.saturating_add(1);
        if self.last.len() >= MOST_ROUNDS {
            let _ = self.last.pop_front();
        }
        let _ = self.last.push_back(Round {
            number: self.count,
            time,
            naks: 0,
            start,
            end: start,
            has_metadata: false,
            asked: RangeSummary::new(self.alloc, MOST_ASKED),
            before,
        });
    }
}

/// Returns how many rounds in a row, up to the last one, requested as much as that, if it is like
/// the one before, which ends so long a row.
fn alike_count(is_alike: bool, before: u64) -> u64
    ensures { result ≡ rounds.alike_count is_alike before }
{
    if is_alike {
        before.saturating_add(1)
    } else {
        1
    }
}

/// Adds ranges.
fn add_all(ranges: &mut RangeSummary, all: &[(u64, u64)]) -> Result<(), AllocError> {
    for (start, end) in all {
        ranges.add(*start, *end)?;
    }
    Ok(())
}
