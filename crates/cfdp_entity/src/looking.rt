// What a user can look at, beside what every driver asks for.
ghost use Rattle.std.specs.Prelude.{◌≡◌, ◌+◌, ◌<◌, drop, length, MatchOption};
ghost use Rattle.std.specs.FinMap as map;
ghost use Rattle.cfdp_timers.specs.Due.{IsLeast};
ghost use Rattle.cfdp_entity.specs.Walking.{phases_of};

use crate::entity::Entity;
use crate::table::MOST_RECORDS;
use crate::transactions::Transactions;
use cfdp_directives::Indication;
use cfdp_header::TransactionId;
use cfdp_store::{Inbox, Outbox};
use cfdp_timers::Kind;
use std::fmt;

impl<O: Outbox, I: Inbox> Entity<O, I> {
    /// Returns the transactions that have a record here, closed ones too, in order of opening, each
    /// with how far it has come.
    pub fn transactions(&self) -> Transactions<'_>
        ensures { result ≡ phases_of self.now.state.table }
    {
        self.table.transactions()
    }

    /// Returns how many more transactions there is room for: each has one of 4,096 records, which
    /// it keeps until it is forgotten.
    pub fn records_left(&self) -> usize
        ensures { result + length self.now.state.table.records ≡ 4096 }
    {
        MOST_RECORDS - self.table.len()
    }

    /// Returns when `tick` must be called at the latest: the earliest deadline of all armed timers,
    /// also those of kind Inactivity, in units of the clock of `tick`; `None` if none is armed.
    pub fn next_timeout(&self) -> Option<u64>
        ensures { MatchOption result (self.now.state.table.armed ≡ map.empty)
            (λ deadline. IsLeast self.now.state.table.armed deadline) }
    {
        self.table.next_timeout()
    }

    /// Returns when a timer of a transaction fires, in units of the clock of `tick`; `None` if
    /// it isn't armed.
    pub fn deadline_of(&self, id: TransactionId, kind: Kind) -> Option<u64>
        ensures { result ≡ map.get self.now.state.table.armed (id, kind) }
    {
        self.table.deadline_of(id, kind)
    }

    /// Returns what was indicated after the first so many indications, in order: none if there are
    /// no more, and `None` if some of it was discarded. A user that adds up how many it was given
    /// takes out each one once.
    pub fn indications_since(&self, mark: u64) -> Option<&[Indication]>
        ensures { MatchOption result (mark < self.now.state.table.gone)
            (λ rest. rest.now ≡ drop mark self.now.state.table.told) }
    {
        let at = mark.checked_sub(self.table.gone())?;
        Some(behind(self.table.told(), at as usize))
    }

    /// Returns how many indications were discarded: the mark of the first one that is left.
    pub fn indications_gone(&self) -> u64
        ensures { result ≡ self.now.state.table.gone }
    {
        self.table.gone()
    }
}

/// Returns what stands after the first so many.
fn behind(told: &[Indication], mark: usize) -> &[Indication]
    ensures { result.now ≡ drop mark told.now }
{
    match told.get(mark..) {
        Some(rest) => rest,
        None => &[],
    }
}

impl<O: Outbox, I: Inbox> fmt::Debug for Entity<O, I> {
    /// Writes its id and its peer's, and how many records and indications it has.
    fn fmt<W: fmt::Write>(&self, f: &mut fmt::Formatter<W>) -> fmt::Result {
        f.debug_struct("Entity")
            .field("entity", &self.config.entity)
            .field("peer", &self.config.peer)
            .field("records", &self.table.len())
            .field("indications", &self.table.told().len())
            .finish()
    }
}
