// Files that an entity is asked to send.
ghost use Rattle.std.specs.Prelude.{◌≡◌, ◌<◌, ◌≤◌, ◌^◌, nat_lt, true, false, None, Some, is_some};
ghost use Rattle.std.specs.Prelude.{IfSome, IfErr, IfOk, OnOk, OnErr};
ghost use Rattle.std.specs.FinMap as map;
ghost use Rattle.std.specs.Result.{result_err};
ghost use Rattle.cfdp_header.specs.Header.{IsWidth};
ghost use Rattle.cfdp_directives.specs.Pdu.Codes as codes;
ghost use Rattle.cfdp_store.specs.declared.stored.Stored.TheVariants as storeds;
ghost use Rattle.cfdp_store.specs.Stores.{failures_after};
ghost use Rattle.cfdp_sender.specs.Does.{HasFile};
ghost use Rattle.cfdp_sender.specs.State.{IsSendable};
ghost use Rattle.cfdp_entity.specs.Entity.{is_forgotten, next_of};
ghost use Rattle.cfdp_entity.specs.Putting.{Accepts, MayPutAs, IsPutRefusal, early_refusal};
ghost use Rattle.cfdp_entity.specs.Putting.{put_refusal, stored_by_error, was_answered, asked};
ghost use Rattle.cfdp_entity.specs.Putting.{next_id, next_transfer, with_put};
ghost use Rattle.cfdp_entity.specs.Table.{place_of};

use crate::entity::Entity;
use crate::error::PutError;
use crate::table::MOST_RECORDS;
use cfdp_directives::{Addressing, Octets, is_file_name, size_limit};
use cfdp_header::{TransactionId, fits_width};
use cfdp_sender::Transfer;
use cfdp_store::{Inbox, Outbox};
use std::alloc::AllocError;

// Returns the number of the next put, if it fits its width.
#[tactic(auto, using(crate::proofs::PutNumbers::past_width))]
fn number_in_width(next: Option<u64>, width: u8) -> Option<u64>
    requires { IsWidth width }
    ensures number { IfSome result (λ number. (number ≡ next_of next) × (number < 256 ^ width)) }
    ensures some { is_some result ≡ nat_lt (next_of next) (256 ^ width) }
{
    match next {
        Some(number) => {
            if fits_width(number, width) {
                Some(number)
            } else {
                None
            }
        }
        None => None,
    }
}

impl<O: Outbox, I: Inbox> Entity<O, I> {
    /// Sends a file of the outbox to the peer, which publishes it under the name `destination`.
    /// Returns the id of the transaction, whose number is used for no other.
    ///
    /// # Errors
    ///
    /// The first that holds, in this order: `Name`, `TableFull`, `NumbersSpent`, `SourceFault`,
    /// `NoSuchFile`, `TooLarge`, `NoMemory`. No number is used then, and nothing changes except
    /// that the outbox counts its failure.
    pub fn put(&mut self, source: &[u8], destination: &[u8]) -> Result<TransactionId, PutError>
        ensures accepted { IfOk result (λ id. Accepts source.now destination.now id self.old.state
            self.new.state) }
        ensures refused { IfErr result (λ by. IsPutRefusal (put_refusal (stored_by_error by)
            source.now destination.now self.old.state) by) }
        ensures err { OnErr result (self.new.state ≡ self.old.state) }
        ensures outbox { self.new.outbox_failures ≡ failures_after self.old.outbox_failures
            (was_answered result) }
        ensures inbox { self.new.inbox_failures ≡ self.old.inbox_failures }
    {
        let number = match self.next_number(source, destination) {
            Ok(number) => number,
            Err(refusal) => return Err(refusal),
        };
        let size = match self.source_size(source) {
            Ok(size) => size,
            Err(refusal) => return Err(refusal),
        };
        match self.open_put(number, source, destination, size) {
            Ok(id) => Ok(id),
            Err(_) => Err(PutError::NoMemory),
        }
    }

    // Returns the number of a put, if it isn't refused before the outbox is asked.
    fn next_number(&self, source: &[u8], destination: &[u8]) -> Result<u64, PutError>
        ensures may { IfOk result (λ number. MayPutAs number source.now destination.now
            self.now.state) }
        ensures refused { result_err result ≡ early_refusal source.now destination.now
            self.now.state }
    {
        if !(is_file_name(source) && is_file_name(destination)) {
            return Err(PutError::Name);
        }
        if MOST_RECORDS <= self.table.len() {
            return Err(PutError::TableFull);
        }
        match number_in_width(self.next, self.config.number_width) {
            Some(number) => Ok(number),
            None => Err(PutError::NumbersSpent),
        }
    }

    // Returns the number of octets of a file of the outbox, if it can be sent.
    fn source_size(&mut self, source: &[u8]) -> Result<u64, PutError>
        ensures size { IfOk result (λ size. HasFile self.old.state.table.sources source.now size
            × (size ≤ codes.size_limit true)) }
        ensures allowed { OnOk result (asked storeds.Done (map.get self.old.state.table.sources
            source.now) ≡ None) }
        ensures refused { IfErr result (λ by. asked (stored_by_error by) (map.get
            self.old.state.table.sources source.now) ≡ Some by) }
        ensures counted { self.new ≡ record self.old {
          outbox_failures
              = failures_after self.old.outbox_failures (was_answered result);
        } }
    {
        match self.table.source_len(source) {
            Ok(Some(size)) => {
                if size <= size_limit(true) {
                    Ok(size)
                } else {
                    Err(PutError::TooLarge)
                }
            }
            Ok(None) => Err(PutError::NoSuchFile),
            Err(_) => Err(PutError::SourceFault),
        }
    }

    // Opens the record of a put that isn't refused.
    fn open_put(
        &mut self,
        number: u64,
        source: &[u8],
        destination: &[u8],
        size: u64,
    ) -> Result<TransactionId, AllocError>
        requires may { MayPutAs number source.now destination.now self.old.state }
        requires file { HasFile self.old.state.table.sources source.now size }
        requires limit { size ≤ codes.size_limit true }
        ensures put { OnOk result (self.new ≡ record self.old {
          state
              = with_put (next_transfer source.now destination.now size self.old.state)
              self.old.state;
        }) }
        ensures id { IfOk result (λ id. id ≡ next_id self.old.state) }
        ensures fresh { OnOk result (place_of (next_id self.old.state)
            self.old.state.table.records ≡ None) }
        ensures unforgotten { OnOk result (is_forgotten self.old.state (next_id self.old.state)
            ≡ false) }
        ensures err { OnErr result (self.new ≡ self.old) }
    {
        let transfer = self.transfer(number, source, destination, size)?;
        let id = transfer.addressing.id;
        self.table.put(transfer)?;
        self.next = number.checked_add(1);
        Ok(id)
    }

    // Returns what the put with this number sends.
    fn transfer(
        &self,
        number: u64,
        source: &[u8],
        destination: &[u8],
        size: u64,
    ) -> Result<Transfer, AllocError>
        requires may { MayPutAs number source.now destination.now self.now.state }
        requires limit { size ≤ codes.size_limit true }
        ensures transfer { IfOk result (λ t. t ≡ next_transfer source.now destination.now size
            self.now.state) }
        ensures sendable { IfOk result IsSendable }
    {
        // For the prover: the invariant of the checksum type.
        let _any_type_fits = self.config.checksum_kind.code();
        let addressing = Addressing {
            id: TransactionId {
                source: self.config.entity,
                number,
            },
            destination: self.config.peer,
            id_width: self.config.id_width,
            number_width: self.config.number_width,
            crc: self.config.pdu_crc,
        };
        Ok(Transfer {
            addressing,
            checksum_kind: self.config.checksum_kind,
            segment: self.config.segment,
            source: Octets::copied(self.alloc, source)?,
            destination: Octets::copied(self.alloc, destination)?,
            size,
        })
    }
}
