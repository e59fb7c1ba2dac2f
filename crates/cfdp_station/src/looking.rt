// What a user can look at, beside what every driver asks for.
ghost use Rattle.std.specs.Prelude.{◌≡◌, ◌+◌, ◌<◌, drop, length, MatchOption};
ghost use Rattle.std.specs.FinMap as map;
ghost use Rattle.cfdp_timers.specs.Due.{IsLeast};
ghost use Rattle.cfdp_entity.specs.Entity.{progress_told};
ghost use Rattle.cfdp_entity.specs.Walking.{phases_of};

use crate::station::Station;
use cfdp_directives::Indication;
use cfdp_entity::Transactions;
use cfdp_header::TransactionId;
use cfdp_store::{Inbox, Outbox};
use cfdp_timers::Kind as Timer;
use link_stack::Lane;
use std::fmt;

impl<O: Outbox, I: Inbox> Station<O, I> {
    /// Returns the transactions that have a record here, closed ones too, in order of opening, each
    /// with how far it has come.
    pub fn transactions(&self) -> Transactions<'_>
        ensures { result ≡ phases_of self.now.entity.state.table }
    {
        self.entity.transactions()
    }

    /// Returns the offset up to which octets of a transaction's file were sent by this station,
    /// even if they didn't come, or have come to it, even if some are missing: what a Keep Alive
    /// says (CCSDS 727.0-B-5, 5.2.8). `None` if the transaction has no record here.
    pub fn progress(&self, id: TransactionId) -> Option<u64>
        ensures { result ≡ progress_told id self.now.entity.state.table }
    {
        self.entity.progress(id)
    }

    /// Returns how many more transactions there is room for: each has one of 4,096 records, which
    /// it keeps until it is forgotten.
    pub fn records_left(&self) -> usize
        ensures { result + length self.now.entity.state.table.records ≡ 4096 }
    {
        self.entity.records_left()
    }

    /// Returns when [`tick`](Self::tick) must be called at the latest: the earliest deadline of all
    /// armed timers, also those of kind Inactivity, in units of the clock of `tick`; `None`
    /// if none is armed.
    pub fn next_timeout(&self) -> Option<u64>
        ensures { MatchOption result (self.now.entity.state.table.armed ≡ map.empty)
            (λ deadline. IsLeast self.now.entity.state.table.armed deadline) }
    {
        self.entity.next_timeout()
    }

    /// Returns when a timer of a transaction expires, in units of the clock of
    /// [`tick`](Self::tick); `None` if it isn't armed.
    pub fn deadline_of(&self, id: TransactionId, timer: Timer) -> Option<u64>
        ensures { result ≡ map.get self.now.entity.state.table.armed (id, timer) }
    {
        self.entity.deadline_of(id, timer)
    }

    /// Returns what was indicated after the first so many indications, in order: none if there are
    /// no more, and `None` if some of it was discarded. A user that adds up how many it was given
    /// takes out each one once.
    ///
    /// ```
    /// for indication in station.indications_since(seen).unwrap_or(&[]) {
    ///     // What became of a transaction.
    ///     seen += 1;
    /// }
    /// ```
    pub fn indications_since(&self, mark: u64) -> Option<&[Indication]>
        ensures { MatchOption result (mark < self.now.entity.state.table.gone)
            (λ rest. rest.now ≡ drop mark self.now.entity.state.table.told) }
    {
        self.entity.indications_since(mark)
    }

    /// Returns how many indications were discarded: the mark of the first one that is left.
    pub fn indications_gone(&self) -> u64
        ensures { result ≡ self.now.entity.state.table.gone }
    {
        self.entity.indications_gone()
    }
}

impl<O: Outbox, I: Inbox> fmt::Debug for Station<O, I> {
    /// Writes its entity, and how many octets of each lane wait to be made frames.
    fn fmt<W: fmt::Write>(&self, f: &mut fmt::Formatter<W>) -> fmt::Result {
        f.debug_struct("Station")
            .field("entity", &self.entity)
            .field("directives", &self.down.waiting_len(Lane::Directives))
            .field("file_data", &self.down.waiting_len(Lane::Data))
            .finish()
    }
}
