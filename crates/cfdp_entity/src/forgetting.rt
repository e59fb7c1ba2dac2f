// Records, indications and received files that are discarded.
ghost use Rattle.std.specs.Prelude.{◌≡◌, Some, IfErr, OnOk, OnErr, slice_get};
ghost use Rattle.std.specs.FinMap as map;
ghost use Rattle.std.specs.Map.{keys_of};
ghost use Rattle.std.specs.Option.{option_map};
ghost use Rattle.cfdp_entity.specs.Entity as entities;
ghost use Rattle.cfdp_entity.specs.Entity.{with_table};
ghost use Rattle.cfdp_entity.specs.Forgetting.{Forgets, ForgetsSome, GoesIfOver, HasNoneOver};
ghost use Rattle.cfdp_entity.specs.Forgetting.{IsForgetRefusal, forget_refusal, over_in};
ghost use Rattle.cfdp_entity.specs.Forgetting.{without_file, without_record};
ghost use Rattle.cfdp_entity.specs.Table.{next_told, without_told};

use crate::entity::Entity;
use crate::error::ForgetError;
use cfdp_directives::Indication;
use cfdp_header::TransactionId;
use cfdp_store::{Inbox, MemoryInbox, Outbox};
use std::alloc::AllocError;

impl<O: Outbox, I: Inbox> Entity<O, I> {
    /// Discards the record of a transaction that is over, so that there is room for another. It
    /// is never opened again: if an EOF or a Finished of it still comes, it is acknowledged by what
    /// it says, and anything else is passed over.
    ///
    /// # Errors
    ///
    /// The first that holds, in this order: `Unknown`, `StillOpen`, `AnswerDue`, `NoMemory`. All is
    /// then as it was.
    pub fn forget(&mut self, id: TransactionId) -> Result<(), ForgetError>
        ensures forgot { OnOk result (Forgets id self.old.state self.new.state) }
        ensures refused { IfErr result (IsForgetRefusal (forget_refusal id self.old.state.table)) }
        ensures err { OnErr result (self.new ≡ self.old) }
        ensures inbox { self.new.inbox_failures ≡ self.old.inbox_failures }
        ensures outbox { self.new.outbox_failures ≡ self.old.outbox_failures }
    {
        let Some(place) = self.table.place_of(id) else {
            return Err(ForgetError::Unknown);
        };
        if let Some(refusal) = self.table.forget_refusal_at(place) {
            return Err(refusal);
        }
        match self.forget_at(place, id) {
            Ok(()) => Ok(()),
            Err(_) => Err(ForgetError::NoMemory),
        }
    }

    /// Returns `true` if the record of a transaction was discarded.
    pub fn was_forgotten(&self, id: TransactionId) -> bool
        ensures { result ≡ entities.is_forgotten self.now.state id }
    {
        self.forgotten.contains(id)
    }

    /// Discards the records of all transactions that are over and must send no acknowledgement.
    ///
    /// # Errors
    ///
    /// `AllocError` if there was no memory to note that one of them is over. Some others may
    /// have gone by then.
    pub fn forget_closed(&mut self) -> Result<(), AllocError>
        ensures some { ForgetsSome self.old.state self.new.state }
        ensures all { OnOk result (HasNoneOver self.new.state.table) }
        ensures inbox { self.new.inbox_failures ≡ self.old.inbox_failures }
        ensures outbox { self.new.outbox_failures ≡ self.old.outbox_failures }
    {
        // From the last one on: few records move up then.
        let count = self.table.len();
        for behind in 0..count {
            self.forget_if_over(count - 1 - behind)?;
        }
        Ok(())
    }

    // Discards the record at an index if that may be done.
    fn forget_if_over(&mut self, place: usize) -> Result<(), AllocError>
        ensures ok { OnOk result (GoesIfOver
            (over_in (slice_get self.old.state.table.records place)) place
            self.old.state self.new.state) }
        ensures err { OnErr result (self.new ≡ self.old) }
        ensures inbox { self.new.inbox_failures ≡ self.old.inbox_failures }
        ensures outbox { self.new.outbox_failures ≡ self.old.outbox_failures }
    {
        match self.table.over_at(place) {
            Some(id) => self.forget_at(place, id),
            None => Ok(()),
        }
    }

    /// Discards the first so many indications of those that are left, or all if there are fewer.
    /// 2^64 - 1 indications can be discarded in all: more stay.
    pub fn forget_indications(&mut self, count: usize)
        ensures { self.new ≡ record self.old {
          state = with_table self.old.state (without_told count self.old.state.table);
        } }
    {
        self.table.forget_told(count);
    }

    /// Takes the first indication that is left, and discards it. That moves the others up: if
    /// many are left, read `indications` and discard all at once by `forget_indications`.
    pub fn next_indication(&mut self) -> Option<Indication>
        ensures told { result ≡ next_told self.old.state.table }
        ensures gone { self.new ≡ record self.old {
          state = with_table self.old.state (without_told 1 self.old.state.table);
        } }
    {
        self.table.take_told()
    }

    // Discards the record at an index.
    fn forget_at(&mut self, place: usize, id: TransactionId) -> Result<(), AllocError>
        requires at { slice_get (keys_of self.old.state.table.records) place ≡ Some id }
        ensures ok { OnOk result (self.new ≡ record self.old {
          state = without_record place id self.old.state;
        }) }
        ensures err { OnErr result (self.new ≡ self.old) }
    {
        self.forgotten.insert(id)?;
        self.table.forget(place, id);
        if place < self.cursor {
            self.cursor -= 1;
        }
        Ok(())
    }
}

impl<O: Outbox> Entity<O, MemoryInbox> {
    /// Removes a published file from the inbox, if there is one of that name, and returns its
    /// octets. Nothing else changes: not what is still received, nor what was indicated.
    pub fn remove_file(&mut self, name: &[u8]) -> Option<Vec<u8>>
        ensures octets { option_map (λ octets. octets.items) result
            ≡ map.get self.old.state.table.files name.now }
        ensures gone { self.new ≡ record self.old {
          state = with_table self.old.state (without_file name.now self.old.state.table);
        } }
    {
        self.table.remove_file(name)
    }
}
