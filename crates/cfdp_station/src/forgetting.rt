//! What a user discards, so that a station can stay up: its memory then follows what is open.
ghost use Rattle.std.specs.Prelude.{◌≡◌, IfErr, OnOk, OnErr};
ghost use Rattle.std.specs.FinMap as map;
ghost use Rattle.std.specs.Option.{option_map};
ghost use Rattle.cfdp_entity.specs.Entity as entities;
ghost use Rattle.cfdp_entity.specs.Entity.{with_table};
ghost use Rattle.cfdp_entity.specs.Forgetting.{Forgets, ForgetsSome, HasNoneOver, IsForgetRefusal};
ghost use Rattle.cfdp_entity.specs.Forgetting.{forget_refusal, without_file};
ghost use Rattle.cfdp_entity.specs.Table.{next_told, without_told};
ghost use Rattle.cfdp_station.specs.Station.{KeepsLink};

use crate::station::Station;
use cfdp_directives::Indication;
use cfdp_entity::ForgetError;
use cfdp_header::TransactionId;
use cfdp_store::{Inbox, MemoryInbox, Outbox};
use std::alloc::AllocError;

impl<O: Outbox, I: Inbox> Station<O, I> {
    /// Discards the record of a transaction that is over, so that there is room for another. It
    /// is never opened again: if an EOF or a Finished of it still comes, it is acknowledged by what
    /// it says, and anything else is passed over.
    ///
    /// # Errors
    ///
    /// The first cause that holds, if one does, in the order of [`ForgetError`]; nothing changed
    /// then.
    pub fn forget(&mut self, id: TransactionId) -> Result<(), ForgetError>
        ensures forgot { OnOk result (Forgets id self.old.entity.state self.new.entity.state) }
        ensures refused { IfErr result (IsForgetRefusal (forget_refusal id
            self.old.entity.state.table)) }
        ensures err { OnErr result (self.new ≡ self.old) }
        ensures inbox { self.new.entity.inbox_failures ≡ self.old.entity.inbox_failures }
        ensures outbox { self.new.entity.outbox_failures ≡ self.old.entity.outbox_failures }
        ensures link { KeepsLink self.old self.new }
    {
        self.entity.forget(id)
    }

    /// Returns `true` if the record of a transaction was discarded.
    pub fn was_forgotten(&self, id: TransactionId) -> bool
        ensures { result ≡ entities.is_forgotten self.now.entity.state id }
    {
        self.entity.was_forgotten(id)
    }

    /// Discards the records of all transactions that are over and must send no acknowledgement.
    ///
    /// # Errors
    ///
    /// `AllocError` if there was no memory to note that one of them is over. Some others may
    /// have gone by then.
    pub fn forget_closed(&mut self) -> Result<(), AllocError>
        ensures some { ForgetsSome self.old.entity.state self.new.entity.state }
        ensures all { OnOk result (HasNoneOver self.new.entity.state.table) }
        ensures inbox { self.new.entity.inbox_failures ≡ self.old.entity.inbox_failures }
        ensures outbox { self.new.entity.outbox_failures ≡ self.old.entity.outbox_failures }
        ensures link { KeepsLink self.old self.new }
    {
        self.entity.forget_closed()
    }

    /// Discards the first so many indications of those that are left, or all if there are fewer.
    /// 2^64 - 1 indications can be discarded in all: more stay.
    pub fn forget_indications(&mut self, count: usize)
        ensures gone { self.new.entity ≡ record self.old.entity {
          state = with_table self.old.entity.state
              (without_told count self.old.entity.state.table);
        } }
        ensures link { KeepsLink self.old self.new }
    {
        self.entity.forget_indications(count);
    }

    /// Takes the first indication that is left, and discards it. That moves the others up: if
    /// many are left, read [`indications`](Self::indications) and discard all at once by
    /// [`forget_indications`](Self::forget_indications).
    ///
    /// ```
    /// while let Some(indication) = station.next_indication() {
    ///     // What became of a transaction.
    /// }
    /// ```
    pub fn next_indication(&mut self) -> Option<Indication>
        ensures told { result ≡ next_told self.old.entity.state.table }
        ensures gone { self.new.entity ≡ record self.old.entity {
          state = with_table self.old.entity.state (without_told 1 self.old.entity.state.table);
        } }
        ensures link { KeepsLink self.old self.new }
    {
        self.entity.next_indication()
    }
}

impl<O: Outbox> Station<O, MemoryInbox> {
    /// Removes a published file from the inbox, if there is one of that name, and returns its
    /// octets. Nothing else changes: not what is still received, nor what was indicated.
    pub fn remove_file(&mut self, name: &[u8]) -> Option<Vec<u8>>
        ensures octets { option_map (λ octets. octets.items) result
            ≡ map.get self.old.entity.state.table.files name.now }
        ensures gone { self.new.entity ≡ record self.old.entity {
          state = with_table self.old.entity.state
              (without_file name.now self.old.entity.state.table);
        } }
        ensures link { KeepsLink self.old self.new }
    {
        self.entity.remove_file(name)
    }
}
