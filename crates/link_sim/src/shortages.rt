//! How often a station was short of memory, of its stores, or of room in a table.
ghost use Rattle.std.specs.Prelude.{◌≡◌, None, true, false, IfSome};
ghost use Rattle.link_sim.specs.Settling.{CountsStay, CountsStayAt, HasRisen, IsSpared, KeepsAll};
ghost use Rattle.link_sim.specs.Settling.{Rises, RisesAt, RisesFirst, shortages};

use cfdp_station::{EntityDrop, LinkDrop, Station};
use cfdp_store::{Inbox, Outbox};
use station_pair::SettleError;

/// How often a station was short of something.
#[derive(Clone, Copy, PartialEq, Eq)]
pub(crate) struct Shortages {
    pub(crate) link_memory: u64,
    pub(crate) memory: u64,
    pub(crate) outbox: u64,
    pub(crate) inbox: u64,
    pub(crate) table: u64,
}

impl Shortages {
    pub(crate) fn of<O: Outbox, I: Inbox>(station: &Station<O, I>) -> Self
        ensures { result ≡ shortages station.now }
    {
        Shortages {
            link_memory: station.link_drops(LinkDrop::NoMemory),
            memory: station.drops(EntityDrop::NoMemory),
            outbox: station.outbox().failures(),
            inbox: station.inbox().failures(),
            table: station.drops(EntityDrop::TableFull),
        }
    }

    /// Returns `true` if what this error reports happened since.
    pub(crate) fn shows(&self, error: SettleError, before: &Shortages) -> bool
        ensures rises { result ≡ true → RisesAt error before.now self.now }
        ensures keeps { result ≡ false → CountsStayAt error before.now self.now }
    {
        match error {
            SettleError::NoMemory => {
                has_risen(before.link_memory, self.link_memory)
                    || has_risen(before.memory, self.memory)
            }
            SettleError::StoreFailed => {
                has_risen(before.outbox, self.outbox) || has_risen(before.inbox, self.inbox)
            }
            SettleError::TableFull => has_risen(before.table, self.table),
        }
    }
}

/// Returns `true` if a count rose, or may have risen unseen: it stays at the greatest value.
fn has_risen(before: u64, now: u64) -> bool
    ensures risen { result ≡ true → HasRisen before now }
    ensures spared { result ≡ false → IsSpared before now }
{
    now != before || now == u64::MAX
}

/// Returns what either station was short of since, if anything: the error with the lowest number.
pub(crate) fn shortage_since(
    before: &(Shortages, Shortages),
    now: &(Shortages, Shortages),
) -> Option<SettleError>
    ensures short { IfSome result (λ error. RisesFirst error before.now now.now) }
    ensures well { result ≡ None → KeepsAll before.now now.now }
{
    if either_shows(SettleError::NoMemory, before, now) {
        Some(SettleError::NoMemory)
    } else if either_shows(SettleError::StoreFailed, before, now) {
        Some(SettleError::StoreFailed)
    } else if either_shows(SettleError::TableFull, before, now) {
        Some(SettleError::TableFull)
    } else {
        None
    }
}

fn either_shows(
    error: SettleError,
    before: &(Shortages, Shortages),
    now: &(Shortages, Shortages),
) -> bool
    ensures rises { result ≡ true → Rises error before.now now.now }
    ensures keeps { result ≡ false → CountsStay error before.now now.now }
{
    now.0.shows(error, &before.0) || now.1.shows(error, &before.1)
}
