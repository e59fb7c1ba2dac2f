// Records that are restored after a restart of the station.
ghost use Rattle.std.specs.Prelude.{◌≡◌, ◌⊎◌, ℕ, ◌<◌, ◌≤◌, false, true, length, nat_le, nat_lt};
ghost use Rattle.std.specs.Prelude.{take};
ghost use Rattle.std.specs.Prelude.{None, IfErr, IfNone, IfOk, IfSome, IsSome, IsTrue, OnErr, OnOk};
ghost use Rattle.std.specs.Prelude as lists;
ghost use Rattle.std.specs.FinMap as map;
ghost use Rattle.std.specs.FinSet as set;
ghost use Rattle.cfdp_directives.specs.Pdu.Sums.{SumsFit};
ghost use Rattle.cfdp_extents.specs.Forgotten.{ids_of};
ghost use Rattle.cfdp_sender.specs.Does.{HasFile, HasFileWhile};
ghost use Rattle.cfdp_sender.specs.Inputs.{front_sums};
ghost use Rattle.cfdp_store.specs.Files.{octets_in};
ghost use Rattle.cfdp_store.specs.Stores.{failures_after};
ghost use Rattle.cfdp_entity.specs.Entity.{EntityState, counted_lent, entity_lent, is_forgotten};
ghost use Rattle.cfdp_entity.specs.Entity.{next_of};
ghost use Rattle.cfdp_entity.specs.Restoring.{MayRestoreSender, RestoresSender, SenderCause};
ghost use Rattle.cfdp_entity.specs.Restoring.{ForgottenCause, all_kept, is_fault, is_own_put};
ghost use Rattle.cfdp_entity.specs.Restoring.{MayRestoreReceiver, ReceiverCause, RestoresReceiver};
ghost use Rattle.cfdp_entity.specs.Restoring.{is_inbox_fault, is_peers_put, was_shown};
ghost use Rattle.cfdp_entity.specs.Restoring.{record_kept, was_read, with_forgotten};
ghost use Rattle.cfdp_entity.specs.Table.{ShowsIf, place_of};

use crate::entity::Entity;
use crate::record::Record;
use crate::table::MOST_RECORDS;
use cfdp_directives::{Addressing, Checksums, size_limit};
use cfdp_extents::{Extents, Numbers};
use cfdp_header::TransactionId;
use cfdp_receiver::CommittedReceiver;
use cfdp_sender::{CommittedSender, SenderPhase};
use cfdp_store::{Inbox, Outbox, ResumingInbox};
use indexmap::map::Iter;
use thiserror::Error;

/// How many octets of a file are read at once.
const PIECE: usize = 4096;

/// Why a record isn't restored: the first cause that holds, in the order in which they are
/// reported.
#[derive(Clone, Copy, Debug, PartialEq, Eq, Error)]
pub enum RestoreError {
    /// The transaction isn't one of this entity with its peer, in this direction. A file that this
    /// entity sends must have a number below that of the next put. Reported first.
    #[error("the transaction is not of this entity and its peer")]
    NotOurs,
    /// What the journal kept isn't in its ranges.
    #[error("what is kept of the transaction is invalid")]
    Invalid,
    /// The transaction has a record already, or it is forgotten.
    #[error("the transaction is known already")]
    Taken,
    /// There is no room for one more record.
    #[error("the transaction table is full")]
    TableFull,
    /// The outbox failed when it was asked for the file, or to read it.
    #[error("the outbox could not read the file")]
    SourceFault,
    /// The outbox has no file of that name.
    #[error("no such file")]
    NoSuchFile,
    /// The file in the outbox hasn't the size that it had when it was put.
    #[error("the file has another size now")]
    OtherSize,
    /// The inbox failed when it was asked for the part of the file, or to read it.
    #[error("the inbox could not read the part of the file")]
    InboxFault,
    /// The inbox has no part of the file, or it lacks something that was held.
    #[error("the part of the file is missing or too short")]
    ShortPart,
    /// There is no memory for the record. Reported last.
    #[error("out of memory")]
    NoMemory,
}

/// The records of an entity one by one, in order of opening, each with its transaction.
pub type Records<'a> = Iter<'a, TransactionId, Record>;

/// The sources of transactions that an entity has forgotten, each with its numbers.
pub type ForgottenNumbers<'a> = Iter<'a, u64, Numbers>;

// Returns `true` if a put with this number was made.
fn was_used(next: Option<u64>, number: u64) -> bool
    ensures { result ≡ nat_lt number (next_of next) }
{
    match next {
        Some(next) => number < next,
        None => true,
    }
}

// Returns `true` if a put with each number below `end` was made.
fn ends_below(next: Option<u64>, end: u64) -> bool
    ensures { result ≡ nat_le end (next_of next) }
{
    match next {
        Some(next) => end <= next,
        None => true,
    }
}

impl<O: Outbox, I: Inbox> Entity<O, I> {
    /// Returns the records in order of opening, each with its transaction, for a journal to keep:
    /// of a sender the fields of [`CommittedSender`] and its `progress`, of a receiver the fields
    /// of `CommittedReceiver` and what it has `held`.
    pub fn records(&self) -> Records<'_>
        ensures { lists.map record_kept result ≡ all_kept self.now.state.table }
    {
        self.table.records()
    }

    /// Returns the sources of forgotten transactions, each with its numbers, for a journal to keep:
    /// `Numbers::ranges` has all but the greatest number there is.
    pub fn forgotten(&self) -> ForgottenNumbers<'_>
        ensures { ids_of result ≡ self.now.state.forgotten }
    {
        self.forgotten.sources()
    }

    /// Restores the record of a file that this entity was sending, after all other records. `sent`
    /// is the number of octets of the file that it goes on after: how many were sent when the
    /// journal was written, or any other number up to the file's size. The outbox is read up to
    /// there, for the file's checksum. Nothing is indicated.
    ///
    /// Restore the records of a journal in their order, on an entity that was just made, before any
    /// other call. Its `first_number` must be greater than the number of each put before.
    ///
    /// If the file isn't sent any more (`Cancelling`, `Closed`), it needn't be in the outbox as
    /// long as `sent` is 0.
    ///
    /// # Errors
    ///
    /// The first that holds, in this order: `NotOurs`, `Invalid`, `Taken`, `TableFull`,
    /// `SourceFault`, `NoSuchFile`, `OtherSize`, `NoMemory`; `SourceFault` again if a read fails.
    /// No record is restored then, and nothing changes except that the outbox counts its failure
    /// and may have shown other octets of the file.
    pub fn restore_sender(&mut self, kept: CommittedSender, sent: u64) -> Result<(), RestoreError>
        ensures restored { OnOk result (RestoresSender kept sent self.old.state self.new.state) }
        ensures refused { IfErr result (λ by. SenderCause by kept sent self.old.state) }
        ensures err { OnErr result (self.new.state ≡ entity_lent self.new.state self.old.state) }
        ensures shows { ShowsIf true self.old.state.table self.new.state.table }
        ensures outbox { self.new.outbox_failures ≡ failures_after self.old.outbox_failures
            (was_read result) }
        ensures inbox { self.new.inbox_failures ≡ self.old.inbox_failures }
    {
        if let Some(refusal) = self.sender_refusal(&kept, sent) {
            return Err(refusal);
        }
        let sums = match self.read_front(&kept, sent) {
            Ok(sums) => sums,
            Err(refusal) => return Err(refusal),
        };
        match self.table.restore_sender(kept, sent, sums) {
            Ok(()) => Ok(()),
            Err(_) => Err(RestoreError::NoMemory),
        }
    }

    /// Forgets transactions of a source, as those that were forgotten when the journal was written:
    /// those whose numbers are `start` or more, and less than `end`. Call it before any record is
    /// restored.
    ///
    /// # Errors
    ///
    /// The first that holds, in this order: `NotOurs` if the source is this entity, and `end` is
    /// greater than the number of the next put; `Taken` if there is a record; `NoMemory`. All is
    /// then as it was.
    pub fn restore_forgotten(
        &mut self,
        source: u64,
        start: u64,
        end: u64,
    ) -> Result<(), RestoreError>
        ensures restored { OnOk result (self.new ≡ record self.old {
          state = with_forgotten source start end self.old.state;
        }) }
        ensures refused { IfErr result (λ by. ForgottenCause by source end self.old.state) }
        ensures err { OnErr result (self.new ≡ self.old) }
    {
        if self.is_unused(source, end) {
            return Err(RestoreError::NotOurs);
        }
        if 0 < self.table.len() {
            return Err(RestoreError::Taken);
        }
        match self.forgotten.insert_range(source, start, end) {
            Ok(()) => Ok(()),
            Err(_) => Err(RestoreError::NoMemory),
        }
    }

    // Returns `true` if numbers of this entity below `end` weren't used for a put.
    fn is_unused(&self, source: u64, end: u64) -> bool
        ensures unused { result ≡ true → (source ≡ self.now.state.config.entity)
            × (self.now.state.next < end) }
        ensures used { result ≡ false → source ≡ self.now.state.config.entity
            → end ≤ self.now.state.next }
    {
        source == self.config.entity && !ends_below(self.next, end)
    }

    // Returns why a sender isn't restored, if that doesn't depend on the outbox.
    fn sender_refusal(&self, kept: &CommittedSender, sent: u64) -> Option<RestoreError>
        ensures may { IfNone result (MayRestoreSender kept.now sent self.now.state) }
        ensures refused { IfSome result (λ by. SenderCause by kept.now sent self.now.state) }
        ensures unasked { IfSome result (λ by. is_fault by ≡ false) }
    {
        if !self.is_own_put(kept.transfer.addressing) {
            return Some(RestoreError::NotOurs);
        }
        if !kept.is_valid() || kept.transfer.size < sent {
            return Some(RestoreError::Invalid);
        }
        if self.is_known(kept.transfer.addressing.id) {
            return Some(RestoreError::Taken);
        }
        if MOST_RECORDS <= self.table.len() {
            return Some(RestoreError::TableFull);
        }
        None
    }

    // Reads the front of a sender's file, and returns its sums. The file must be in the outbox if
    // it is sent, or if its front isn't empty.
    fn read_front(&mut self, kept: &CommittedSender, sent: u64) -> Result<Checksums, RestoreError>
        requires within { sent ≤ kept.now.transfer.size }
        ensures front { IfOk result (λ sums. IsTrue self.new.state.table.stands
            → sums ≡ front_sums kept.now.transfer.checksum_kind (take sent
            (octets_in self.new.state.table.sources kept.now.transfer.source))) }
        ensures fits { IfOk result SumsFit }
        ensures file { OnOk result (HasFileWhile kept.now.phase self.new.state.table.sources
            kept.now.transfer.source kept.now.transfer.size) }
        ensures refused { IfErr result (λ by. SenderCause by kept.now sent self.old.state) }
        ensures shows { ShowsIf true self.old.state.table self.new.state.table }
        ensures counted { self.new ≡ record (counted_lent self.new self.old) {
          outbox_failures
              = failures_after self.old.outbox_failures (was_read result);
        } }
    {
        self.check_front(kept, sent)?;
        self.read_sums(kept, sent)
    }

    // Fails if the outbox hasn't the file of a sender, with its size, and the sender needs it.
    fn check_front(&mut self, kept: &CommittedSender, sent: u64) -> Result<(), RestoreError>
        requires within { sent ≤ kept.now.transfer.size }
        ensures file { OnOk result (HasFileWhile kept.now.phase self.old.state.table.sources
            kept.now.transfer.source kept.now.transfer.size) }
        ensures there { OnOk result (0 < sent
            → IsSome (map.get self.old.state.table.sources kept.now.transfer.source)) }
        ensures within { OnOk result (sent
            ≤ length (octets_in self.old.state.table.sources kept.now.transfer.source)) }
        ensures refused { IfErr result (λ by. SenderCause by kept.now sent self.old.state) }
        ensures counted { self.new ≡ record self.old {
          outbox_failures
              = failures_after self.old.outbox_failures (was_read result);
        } }
    {
        match kept.phase {
            SenderPhase::Sending => self.check_file(kept),
            SenderPhase::Cancelling | SenderPhase::Closed => {
                if sent == 0 {
                    Ok(())
                } else {
                    self.check_file(kept)
                }
            }
        }
    }

    // Fails if the outbox hasn't the file of a sender, with its size.
    fn check_file(&mut self, kept: &CommittedSender) -> Result<(), RestoreError>
        ensures has { OnOk result (HasFile self.old.state.table.sources kept.now.transfer.source
            kept.now.transfer.size) }
        ensures refused { IfErr result (λ by. (sent : ℕ)
            → SenderCause by kept.now sent self.old.state) }
        ensures counted { self.new ≡ record self.old {
          outbox_failures
              = failures_after self.old.outbox_failures (was_read result);
        } }
    {
        match self.table.source_len(kept.transfer.source.as_slice()) {
            Ok(Some(len)) => {
                if len == kept.transfer.size {
                    Ok(())
                } else {
                    Err(RestoreError::OtherSize)
                }
            }
            Ok(None) => Err(RestoreError::NoSuchFile),
            Err(_) => Err(RestoreError::SourceFault),
        }
    }

    // Reads the front of a sender's file that the outbox has, and returns its sums.
    fn read_sums(&mut self, kept: &CommittedSender, sent: u64) -> Result<Checksums, RestoreError>
        requires there { 0 < sent
            → IsSome (map.get self.old.state.table.sources kept.now.transfer.source) }
        requires within { sent
            ≤ length (octets_in self.old.state.table.sources kept.now.transfer.source) }
        ensures front { IfOk result (λ sums. IsTrue self.new.state.table.stands
            → sums ≡ front_sums kept.now.transfer.checksum_kind (take sent
            (octets_in self.new.state.table.sources kept.now.transfer.source))) }
        ensures fits { IfOk result SumsFit }
        ensures refused { IfErr result (λ by. (e : EntityState)
            → SenderCause by kept.now sent e) }
        ensures shows { ShowsIf true self.old.state.table self.new.state.table }
        ensures counted { self.new ≡ record (counted_lent self.new self.old) {
          outbox_failures
              = failures_after self.old.outbox_failures (was_read result);
        } }
    {
        let mut buffer = match Vec::from_array(self.alloc, [0; PIECE]) {
            Ok(buffer) => buffer,
            Err(_) => return Err(RestoreError::NoMemory),
        };
        let kind = kept.transfer.checksum_kind;
        let name = kept.transfer.source.as_slice();
        match self
            .table
            .sums_of_front(kind, name, sent, buffer.as_mut_slice())
        {
            Ok(sums) => Ok(sums),
            Err(_) => Err(RestoreError::SourceFault),
        }
    }

    // Returns `true` if it is the transaction of a put of this entity.
    fn is_own_put(&self, addressing: Addressing) -> bool
        ensures { result ≡ is_own_put addressing self.now.state }
    {
        addressing.id.source == self.config.entity
            && was_used(self.next, addressing.id.number)
            && addressing.destination == self.config.peer
    }

    // Returns `true` if a transaction has a record, or is forgotten.
    fn is_known(&self, id: TransactionId) -> bool
        ensures known { result ≡ true → (is_forgotten self.now.state id ≡ true)
            ⊎ IsSome (place_of id self.now.state.table.records) }
        ensures unknown { result ≡ false → (is_forgotten self.now.state id ≡ false)
            × (place_of id self.now.state.table.records ≡ None) }
    {
        self.forgotten.contains(id) || self.table.place_of(id).is_some()
    }
}

impl<O: Outbox, I: ResumingInbox> Entity<O, I> {
    /// Restores the record of a file that this entity was receiving, after all other records, with
    /// what it held of the file. Its part must lie in the inbox, as an earlier run left it: what is
    /// held is read from it, for the file's checksum. Nothing is indicated.
    ///
    /// Restore the records of a journal in their order, on an entity that was just made, before any
    /// other call. `held` must be what was on disk: parts of the file that came later come again.
    /// If nothing is held, the part needn't be there: the whole file is received again. If it isn't
    /// received any more (`Finishing`, `Closed`), the inbox isn't asked for it, and `held` doesn't
    /// count.
    ///
    /// # Errors
    ///
    /// The first that holds, in this order: `NotOurs`, `Invalid`, `Taken`, `TableFull`,
    /// `InboxFault`, `ShortPart`, `NoMemory`. No record is restored then, and nothing changes
    /// except that the inbox counts its failure and may have begun the transaction. The part stays,
    /// so it may be tried again, with less that is held.
    pub fn restore_receiver(
        &mut self,
        kept: CommittedReceiver,
        held: Extents,
    ) -> Result<(), RestoreError>
        ensures restored { OnOk result (RestoresReceiver kept held self.old.state self.new.state) }
        ensures refused { IfErr result (λ by. ReceiverCause by kept held self.old.state) }
        ensures err { OnErr result (self.new.state ≡ self.old.state) }
        ensures inbox { self.new.inbox_failures ≡ failures_after self.old.inbox_failures
            (was_shown result) }
        ensures outbox { self.new.outbox_failures ≡ self.old.outbox_failures }
    {
        if let Some(refusal) = self.receiver_refusal(&kept, &held) {
            return Err(refusal);
        }
        let mut buffer = match Vec::from_array(self.alloc, [0; PIECE]) {
            Ok(buffer) => buffer,
            Err(_) => return Err(RestoreError::NoMemory),
        };
        self.table
            .restore_receiver(kept, held, buffer.as_mut_slice())?;
        Ok(())
    }
}

impl<O: Outbox, I: Inbox> Entity<O, I> {
    // Returns why a receiver isn't restored, if that doesn't depend on the inbox.
    fn receiver_refusal(&self, kept: &CommittedReceiver, held: &Extents) -> Option<RestoreError>
        ensures may { IfNone result (MayRestoreReceiver kept.now held.now self.now.state) }
        ensures refused { IfSome result (λ by. ReceiverCause by kept.now held.now self.now.state) }
        ensures unasked { IfSome result (λ by. is_inbox_fault by ≡ false) }
    {
        if !self.is_peers_put(kept.addressing) {
            return Some(RestoreError::NotOurs);
        }
        if !kept.is_valid() || !is_below(held, size_limit(kept.large)) {
            return Some(RestoreError::Invalid);
        }
        if self.is_known(kept.addressing.id) {
            return Some(RestoreError::Taken);
        }
        if MOST_RECORDS <= self.table.len() {
            return Some(RestoreError::TableFull);
        }
        None
    }

    // Returns `true` if it is the transaction of a put of the peer, for this entity.
    fn is_peers_put(&self, addressing: Addressing) -> bool
        ensures { result ≡ is_peers_put addressing self.now.state }
    {
        addressing.id.source == self.config.peer && addressing.destination == self.config.entity
    }
}

// Returns `true` if each offset is below a limit.
fn is_below(held: &Extents, limit: u64) -> bool
    ensures yes { result ≡ true → (n : ℕ) → set.contains held.now n ≡ true → n < limit }
    ensures no { result ≡ false
        → ((n : ℕ) → set.contains held.now n ≡ true → n < limit) → ⊥ }
{
    held.end() <= limit
}
