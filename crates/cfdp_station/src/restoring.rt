// Records that are restored after a restart.
ghost use Rattle.std.specs.Prelude.{◌≡◌, map, true, IfErr, OnErr, OnOk};
ghost use Rattle.cfdp_store.specs.Stores.{failures_after};
ghost use Rattle.cfdp_entity.specs.Entity.{entity_lent};
ghost use Rattle.cfdp_entity.specs.Exchanging.{told_by};
ghost use Rattle.cfdp_entity.specs.Restoring.{ForgottenCause, RestoresSender, SenderCause};
ghost use Rattle.cfdp_entity.specs.Restoring.{ReceiverCause, RestoresReceiver, all_kept};
ghost use Rattle.cfdp_entity.specs.Restoring.{record_kept, was_read, was_shown, with_forgotten};
ghost use Rattle.cfdp_entity.specs.Table.{ShowsIf};
ghost use Rattle.cfdp_extents.specs.Forgotten.{ids_of};
ghost use Rattle.cfdp_station.specs.Station.{KeepsLink};

use crate::station::Station;
use cfdp_entity::{
    CommittedReceiver, CommittedSender, Extents, ForgottenNumbers, Record, Records, RestoreError,
};
use cfdp_store::{Inbox, Outbox, ResumingInbox};

impl<O: Outbox, I: Inbox> Station<O, I> {
    /// Returns the records in order of opening, each with its transaction, for a journal to keep.
    pub fn records(&self) -> Records<'_>
        ensures { map record_kept result ≡ all_kept self.now.entity.state.table }
    {
        self.entity.records()
    }

    /// Returns the sources of forgotten transactions, each with its numbers, for a journal to keep:
    /// `Numbers::ranges` has all but the greatest number there is.
    pub fn forgotten(&self) -> ForgottenNumbers<'_>
        ensures { ids_of result ≡ self.now.entity.state.forgotten }
    {
        self.entity.forgotten()
    }

    /// Restores the record of a file that this station was sending, after all other records.
    /// `sent` is the number of octets of the file that it goes on after: how many were sent when
    /// the journal was written, or any other number up to the file's size.
    ///
    /// Restore the records of a journal in their order, on a station that was just made, before any
    /// other call. Its `first_number` must be greater than the number of each put before.
    ///
    /// # Errors
    ///
    /// The first cause that holds, if one does, in the order of [`RestoreError`]. No record is
    /// restored then, and nothing changes except that the outbox counts its failure and may have
    /// shown other octets of the file.
    pub fn restore_sender(&mut self, kept: CommittedSender, sent: u64) -> Result<(), RestoreError>
        ensures restored { OnOk result (RestoresSender kept sent self.old.entity.state
            self.new.entity.state) }
        ensures refused { IfErr result (λ by. SenderCause by kept sent self.old.entity.state) }
        ensures err { OnErr result (self.new.entity.state
            ≡ entity_lent self.new.entity.state self.old.entity.state) }
        ensures shows { ShowsIf true self.old.entity.state.table self.new.entity.state.table }
        ensures outbox { self.new.entity.outbox_failures
            ≡ failures_after self.old.entity.outbox_failures (was_read result) }
        ensures inbox { self.new.entity.inbox_failures ≡ self.old.entity.inbox_failures }
        ensures link { KeepsLink self.old self.new }
    {
        self.entity.restore_sender(kept, sent)
    }

    /// Exchanges what both stations indicated, with how many of these indications were discarded.
    ///
    /// Call it on a station on which the records of a killed one were restored, with the killed
    /// one: then what the station indicates follows what was indicated before the kill.
    pub fn exchange_indications(&mut self, other: &mut Self)
        ensures own { self.new.entity ≡ record self.old.entity {
          state = told_by other.old.entity.state self.old.entity.state;
        } }
        ensures other { other.new.entity ≡ record other.old.entity {
          state = told_by self.old.entity.state other.old.entity.state;
        } }
        ensures link { KeepsLink self.old self.new }
        ensures other_link { KeepsLink other.old other.new }
    {
        self.entity.exchange_indications(&mut other.entity);
    }

    /// Forgets transactions of a source, as those that were forgotten when the journal was written:
    /// those whose numbers are `start` or more, and less than `end`. Call it before any record is
    /// restored.
    ///
    /// # Errors
    ///
    /// `NotOurs` if the source is this entity, and `end` is greater than the number of the next
    /// put; `Taken` if there is a record; `NoMemory`. Nothing changed then.
    pub fn restore_forgotten(
        &mut self,
        source: u64,
        start: u64,
        end: u64,
    ) -> Result<(), RestoreError>
        ensures restored { OnOk result (self.new.entity ≡ record self.old.entity {
          state = with_forgotten source start end self.old.entity.state;
        }) }
        ensures refused { IfErr result (λ by. ForgottenCause by source end
            self.old.entity.state) }
        ensures err { OnErr result (self.new ≡ self.old) }
        ensures link { KeepsLink self.old self.new }
    {
        self.entity.restore_forgotten(source, start, end)
    }
}

impl<O: Outbox, I: ResumingInbox> Station<O, I> {
    /// Restores the record of a file that this station was receiving, after all other records, with
    /// what it held of the file. Its part must lie in the inbox, as an earlier run left it: what is
    /// held is read from it. `held` must be what was on disk: parts of the file that came later
    /// come again. If nothing is held, the part needn't be there: the whole file is received again.
    /// Nothing is indicated.
    ///
    /// Restore the records of a journal in their order, on a station that was just made, before any
    /// other call.
    ///
    /// # Errors
    ///
    /// The first cause that holds, if one does, in the order of [`RestoreError`]. No record is
    /// restored then, and nothing changes except that the inbox counts its failure and may have
    /// begun the transaction. The part stays, so it may be tried again, with less that is held.
    pub fn restore_receiver(
        &mut self,
        kept: CommittedReceiver,
        held: Extents,
    ) -> Result<(), RestoreError>
        ensures restored { OnOk result (RestoresReceiver kept held self.old.entity.state
            self.new.entity.state) }
        ensures refused { IfErr result (λ by. ReceiverCause by kept held self.old.entity.state) }
        ensures err { OnErr result (self.new.entity.state ≡ self.old.entity.state) }
        ensures inbox { self.new.entity.inbox_failures
            ≡ failures_after self.old.entity.inbox_failures (was_shown result) }
        ensures outbox { self.new.entity.outbox_failures ≡ self.old.entity.outbox_failures }
        ensures link { KeepsLink self.old self.new }
    {
        self.entity.restore_receiver(kept, held)
    }
}
