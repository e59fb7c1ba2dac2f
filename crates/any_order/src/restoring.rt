//! What a station restores of one that was killed, as a journal would have it.
ghost use Rattle.std.specs.Prelude.{◌≡◌, ◌⊎◌, ℕ, true, IfOk, IfSome, OnOk};
ghost use Rattle.std.specs.FinSet as set;
ghost use Rattle.std.specs.Option.{option_map};
ghost use Rattle.cfdp_header.specs.declared.value.TransactionId.{TransactionId};
ghost use Rattle.cfdp_sender.specs.Back as sender_back;
ghost use Rattle.cfdp_receiver.specs.Back as receiver_back;
ghost use Rattle.cfdp_entity.specs.Entity.{EntityState, is_forgotten};
ghost use Rattle.cfdp_entity.specs.Restoring.{OfReceiver, OfSender, all_kept, record_kept};
ghost use Rattle.cfdp_station.specs.Station.{KeepsLink};
ghost use Rattle.any_order.specs.Restoring.{ForgetsOnly, IsClosedIn, IsOfClosed, RestoresAll};
ghost use Rattle.any_order.specs.Restoring.{RestoresKept, goes_on_after};

use cfdp_directives::Octets;
use cfdp_entity::{CommittedReceiver, CommittedSender, Extents, Record, RestoreError};
use cfdp_extents::Numbers;
use cfdp_header::TransactionId;
use cfdp_receiver::{FileInfo, Receiver};
use cfdp_sender::{Sender, SenderPhase, Transfer};
use cfdp_station::{Inbox, Outbox, ResumingInbox, Station};
use std::alloc::{AllocError, Global};

/// Returns what a journal keeps of a sender; `None` if memory doesn't have its names any more.
fn committed_sender(alloc: Global, sender: &Sender) -> Result<Option<CommittedSender>, AllocError>
    ensures { IfOk result (λ kept. IfSome kept (λ c. c ≡ sender_back.committed_of sender.now)) }
{
    let Some((source, destination)) = sender.names() else {
        return Ok(None);
    };
    Ok(Some(CommittedSender {
        transfer: Transfer {
            addressing: sender.addressing(),
            checksum_kind: sender.checksum_kind(),
            segment: sender.segment(),
            source: Octets::copied(alloc, source)?,
            destination: Octets::copied(alloc, destination)?,
            size: sender.size(),
        },
        phase: sender.kept_phase(),
        suspended: sender.is_suspended(),
        eof_taken: sender.is_eof_taken(),
        acknowledged: sender.is_acknowledged(),
        condition: sender.condition(),
    }))
}

/// Returns a copy of what Metadata said.
fn copied_info(alloc: Global, info: Option<&FileInfo>) -> Result<Option<FileInfo>, AllocError>
    ensures { IfOk result (λ copy. copy ≡ option_map (λ i. i.now) info.entry) }
{
    match info {
        Some(info) => Ok(Some(FileInfo {
            checksum_kind: info.checksum_kind,
            destination: info.destination.copy(alloc)?,
        })),
        None => Ok(None),
    }
}

/// Returns what a journal keeps of a receiver, except the parts of its file that it holds.
fn committed_receiver(alloc: Global, receiver: &Receiver) -> Result<CommittedReceiver, AllocError>
    ensures { IfOk result (λ c. c ≡ receiver_back.committed_of receiver.now) }
{
    let metadata = copied_info(alloc, receiver.metadata())?;
    Ok(CommittedReceiver {
        addressing: receiver.addressing(),
        large: receiver.is_large(),
        phase: receiver.kept_phase(),
        suspended: receiver.is_suspended(),
        metadata,
        ending: receiver.ending(),
        outcome: receiver.outcome(),
    })
}

/// Returns after how many octets of its file a sender goes on: after those that it had sent. A file
/// that isn't sent any more isn't read.
fn front_of(sender: &Sender) -> u64
    ensures { result ≡ goes_on_after sender.now.phase sender.now.sent }
{
    match sender.kept_phase() {
        SenderPhase::Sending => sender.progress(),
        SenderPhase::Cancelling | SenderPhase::Closed => 0,
    }
}

/// Fails if a sender can't be left out: it must be closed, and its transaction forgotten.
fn check_left_out<O: Outbox, I: Inbox>(
    station: &Station<O, I>,
    id: TransactionId,
    sender: &Sender,
) -> Result<(), RestoreError>
    ensures closed { OnOk result (sender.now.phase ≡ SenderPhase.Closed) }
    ensures forgotten { OnOk result (is_forgotten station.now.entity.state id ≡ true) }
{
    if sender.kept_phase() != SenderPhase::Closed || !station.was_forgotten(id) {
        return Err(RestoreError::Invalid);
    }
    Ok(())
}

/// Restores the record of a file that was being sent. If memory doesn't have its names any more,
/// its transaction must be closed and forgotten, and nothing is restored.
fn restore_sender<O: Outbox, I: Inbox>(
    alloc: Global,
    station: &mut Station<O, I>,
    id: TransactionId,
    sender: &Sender,
) -> Result<(), RestoreError>
    ensures restored { OnOk result (RestoresKept id
        (OfSender (sender_back.committed_of sender.now) sender.now.sent)
        station.old.entity.state station.new.entity.state) }
    ensures link { KeepsLink station.old station.new }
{
    let Ok(committed) = committed_sender(alloc, sender) else {
        return Err(RestoreError::NoMemory);
    };
    let Some(kept) = committed else {
        check_left_out(station, id, sender)?;
        return Ok(());
    };
    station.restore_sender(kept, front_of(sender))?;
    Ok(())
}

/// Restores the record of a file that was being received. Nothing is held of the file.
fn restore_receiver<O: Outbox, I: ResumingInbox>(
    alloc: Global,
    station: &mut Station<O, I>,
    receiver: &Receiver,
) -> Result<(), RestoreError>
    ensures restored { (id : TransactionId) → OnOk result (RestoresKept id
        (OfReceiver (receiver_back.committed_of receiver.now) receiver.now.held)
        station.old.entity.state station.new.entity.state) }
    ensures link { KeepsLink station.old station.new }
{
    let Ok(kept) = committed_receiver(alloc, receiver) else {
        return Err(RestoreError::NoMemory);
    };
    station.restore_receiver(kept, Extents::new(alloc))?;
    Ok(())
}

/// Restores a record.
fn restore_record<O: Outbox, I: ResumingInbox>(
    alloc: Global,
    station: &mut Station<O, I>,
    id: TransactionId,
    kept: &Record,
) -> Result<(), RestoreError>
    ensures restored { OnOk result (RestoresKept id (record_kept (id, kept.now)).1
        station.old.entity.state station.new.entity.state) }
    ensures link { KeepsLink station.old station.new }
{
    match kept {
        Record::Sends(sender) => restore_sender(alloc, station, id, sender),
        Record::Receives(receiver) => restore_receiver(alloc, station, receiver),
    }
}

/// Restores all records of another station, in their order.
fn restore_records<O: Outbox, I: ResumingInbox>(
    alloc: Global,
    station: &mut Station<O, I>,
    killed: &Station<O, I>,
) -> Result<(), RestoreError>
    ensures restored { OnOk result (RestoresAll (all_kept killed.now.entity.state.table)
        station.old.entity.state station.new.entity.state) }
    ensures link { KeepsLink station.old station.new }
{
    for (id, record) in killed.records() {
        restore_record(alloc, station, *id, record)?;
    }
    Ok(())
}

/// Forgets the transactions of a source with these numbers.
fn forget_source<O: Outbox, I: Inbox>(
    station: &mut Station<O, I>,
    source: u64,
    numbers: &Numbers,
) -> Result<(), RestoreError>
    ensures forgets { ForgetsOnly (λ id. (id.source ≡ source)
        × (set.contains numbers.now id.number ≡ true)) station.old.entity.state
        station.new.entity.state }
    ensures all { OnOk result ((n : ℕ) → set.contains numbers.now n ≡ true →
        is_forgotten station.new.entity.state (record { source = source; number = n }) ≡ true) }
    ensures link { KeepsLink station.old station.new }
{
    if numbers.contains(u64::MAX) {
        return Err(RestoreError::Invalid);
    }
    for (start, end) in numbers.ranges() {
        station.restore_forgotten(source, start, end)?;
    }
    Ok(())
}

/// Forgets all transactions that another station has forgotten.
fn forget_all<O: Outbox, I: Inbox>(
    station: &mut Station<O, I>,
    killed: &Station<O, I>,
) -> Result<(), RestoreError>
    ensures forgets { ForgetsOnly (λ id. is_forgotten killed.now.entity.state id ≡ true)
        station.old.entity.state station.new.entity.state }
    ensures all { OnOk result ((id : TransactionId) →
        is_forgotten killed.now.entity.state id ≡ true →
        is_forgotten station.new.entity.state id ≡ true) }
    ensures link { KeepsLink station.old station.new }
{
    for (source, numbers) in killed.forgotten() {
        forget_source(station, *source, numbers)?;
    }
    Ok(())
}

/// Forgets a transaction.
fn forget<O: Outbox, I: Inbox>(
    station: &mut Station<O, I>,
    id: TransactionId,
) -> Result<(), RestoreError>
    ensures forgets { ForgetsOnly (λ q. q ≡ id) station.old.entity.state
        station.new.entity.state }
    ensures link { KeepsLink station.old station.new }
{
    let Some(end) = id.number.checked_add(1) else {
        return Err(RestoreError::Invalid);
    };
    station.restore_forgotten(id.source, id.number, end)?;
    Ok(())
}

/// Returns `true` if a record is of a file that was sent, and its transaction is closed.
fn is_closed_sender(kept: &Record) -> bool
    ensures { (id : TransactionId) → result ≡ true → IsOfClosed (record_kept (id, kept.now)).1 }
{
    match kept {
        Record::Sends(sender) => sender.kept_phase() == SenderPhase::Closed,
        Record::Receives(_) => false,
    }
}

/// Forgets a transaction if its record is of a file that was sent, and it is closed.
fn forget_if_closed<O: Outbox, I: Inbox>(
    station: &mut Station<O, I>,
    id: TransactionId,
    kept: &Record,
) -> Result<(), RestoreError>
    ensures forgets { ForgetsOnly (λ q. (q ≡ id) × IsOfClosed (record_kept (id, kept.now)).1)
        station.old.entity.state station.new.entity.state }
    ensures link { KeepsLink station.old station.new }
{
    if !is_closed_sender(kept) {
        return Ok(());
    }
    forget(station, id)?;
    Ok(())
}

/// Forgets the transactions of another station that are closed at their senders.
fn forget_closed<O: Outbox, I: Inbox>(
    station: &mut Station<O, I>,
    killed: &Station<O, I>,
) -> Result<(), RestoreError>
    ensures forgets { ForgetsOnly (IsClosedIn (all_kept killed.now.entity.state.table))
        station.old.entity.state station.new.entity.state }
    ensures link { KeepsLink station.old station.new }
{
    for (id, record) in killed.records() {
        forget_if_closed(station, *id, record)?;
    }
    Ok(())
}

/// Restores on a new station what a journal would have of another one: what was forgotten, and all
/// records.
///
/// # Errors
///
/// The error of the first call that fails. Some records may be restored by then.
pub(crate) fn restore_all<O: Outbox, I: ResumingInbox>(
    alloc: Global,
    station: &mut Station<O, I>,
    killed: &Station<O, I>,
) -> Result<(), RestoreError>
    ensures restored { OnOk result ((begun : EntityState)
        × (ForgetsOnly (λ id. (is_forgotten killed.now.entity.state id ≡ true)
        ⊎ IsClosedIn (all_kept killed.now.entity.state.table) id) station.old.entity.state begun
        × (((id : TransactionId) → is_forgotten killed.now.entity.state id ≡ true →
        is_forgotten begun id ≡ true)
        × RestoresAll (all_kept killed.now.entity.state.table) begun
        station.new.entity.state))) }
    ensures link { KeepsLink station.old station.new }
{
    forget_all(station, killed)?;
    forget_closed(station, killed)?;
    restore_records(alloc, station, killed)?;
    Ok(())
}
