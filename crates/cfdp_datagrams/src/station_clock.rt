//! The time that a station is given.
ghost use Rattle.std.specs.Prelude.{◌≡◌, ◌-◌, ◌≤◌, ◌/◌, max};

use crate::link_clock::LinkClock;
use crate::pacer::SECOND;
use crate::unit::Unit;

/// By how much the time of a station may lag while datagrams wait: what came in time is taken
/// before a timer expires because of it.
const MOST_LAG: u64 = 2 * SECOND;

/// The time that a station is given, in its unit: that of its link. While datagrams wait it is the
/// time at which none did, at most two seconds late. It never goes back.
#[derive(Clone, Copy)]
pub struct StationClock {
    unit: Unit,
    clock: LinkClock,
    // The time of the link at which no datagram waited last, in nanoseconds.
    drained: u64,
    // Which time the station got last, in its unit.
    told: u64,
}

impl StationClock {
    /// Returns the clock at the start.
    pub fn new(unit: Unit) -> StationClock {
        StationClock {
            unit,
            clock: LinkClock::START,
            drained: 0,
            told: 0,
        }
    }

    /// Returns the time of the link, in nanoseconds, now that the clock of the machine shows this,
    /// and the link is down by plan or not.
    pub fn link_time(&mut self, now: u64, is_frozen: bool) -> u64
        ensures told { self.new.told ≡ self.old.told }
    {
        self.clock.at(now, is_frozen)
    }

    /// Notes that no datagram waits.
    pub fn drains(&mut self, now: u64, is_frozen: bool) {
        self.drained = self.clock.at(now, is_frozen);
    }

    /// Returns the time for the station.
    pub fn tells(&mut self, now: u64, is_frozen: bool) -> u64
        ensures forward { self.old.told ≤ result }
        ensures told { self.new.told ≡ result }
    {
        let drained = self
            .drained
            .max(self.clock.at(now, is_frozen).saturating_sub(MOST_LAG));
        self.told = self.told.max(drained / self.unit.nanoseconds());
        self.told
    }
}
