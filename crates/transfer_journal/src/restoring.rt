//! A station on which the transactions of a journal are restored.
ghost use Rattle.std.specs.Prelude.{◌≡◌, ◌++◌, false, IfOk, OnOk};
ghost use Rattle.std.specs.List.{flat_map};
ghost use Rattle.cfdp_directives.specs.Pdu.Codes.{filestore_rejection};
ghost use Rattle.transfer_journal.specs.Pending.{indication_of, pending_in, pending_of};

use crate::kept::{KeptEnd, KeptReceiver, KeptSender, KeptTransfer, PendingEnd};
use crate::survey::{ForgottenRange, Survey};
use cfdp_directives::{Condition, Indication, Octets};
use cfdp_extents::Extents;
use cfdp_header::TransactionId;
use cfdp_receiver::{CommittedReceiver, FileInfo};
use cfdp_sender::{CommittedSender, SenderPhase, Transfer};
use cfdp_station::{RestoreError, Station};
use cfdp_store::{ResumingInbox, SeekingOutbox, StoreError};
use std::alloc::{AllocError, Global};

/// A station on which the transactions of a journal can be restored, or what has such a station.
pub trait Restorable {
    /// Looks for a file in the outbox, as [`Station::look_for`] says.
    ///
    /// # Errors
    ///
    /// As with [`Station::look_for`].
    fn look_for(&mut self, name: &[u8]) -> Result<bool, StoreError>;

    /// Forgets transactions, as [`Station::restore_forgotten`] says.
    ///
    /// # Errors
    ///
    /// As with [`Station::restore_forgotten`].
    fn restore_forgotten(&mut self, source: u64, start: u64, end: u64) -> Result<(), RestoreError>;

    /// Restores the record of a file that was sent, as [`Station::restore_sender`] says.
    ///
    /// # Errors
    ///
    /// As with [`Station::restore_sender`].
    fn restore_sender(&mut self, kept: CommittedSender, sent: u64) -> Result<(), RestoreError>;

    /// Restores the record of a file that was received, as [`Station::restore_receiver`] says.
    ///
    /// # Errors
    ///
    /// As with [`Station::restore_receiver`].
    fn restore_receiver(
        &mut self,
        kept: CommittedReceiver,
        held: Extents,
    ) -> Result<(), RestoreError>;
}

impl<O: SeekingOutbox, I: ResumingInbox> Restorable for Station<O, I> {
    fn look_for(&mut self, name: &[u8]) -> Result<bool, StoreError> {
        Station::look_for(self, name)
    }

    fn restore_forgotten(&mut self, source: u64, start: u64, end: u64) -> Result<(), RestoreError> {
        Station::restore_forgotten(self, source, start, end)
    }

    fn restore_sender(&mut self, kept: CommittedSender, sent: u64) -> Result<(), RestoreError> {
        Station::restore_sender(self, kept, sent)
    }

    fn restore_receiver(
        &mut self,
        kept: CommittedReceiver,
        held: Extents,
    ) -> Result<(), RestoreError> {
        Station::restore_receiver(self, kept, held)
    }
}

/// A transaction that goes on.
#[derive(Debug, Drop)]
pub struct ResumedTransaction {
    /// Which it is.
    pub id: TransactionId,
    /// The file's name: in the outbox, or in the inbox; empty if it isn't known.
    pub name: Vec<u8>,
    /// The name of a file that is sent at the peer; empty if the file is received.
    pub destination: Vec<u8>,
    /// Octets that were sent, or are held.
    pub octets: u64,
    /// Octets of the file, if they are known.
    pub size: Option<u64>,
    /// Whether it is open: its file isn't whole at the peer, or not acknowledged.
    pub is_open: bool,
    /// Whether the user takes it back: it is a put that is open, or whose end the user may not have
    /// heard, as long as no other file has its name by now.
    pub is_taken_back: bool,
}

/// What became of the transactions of a journal.
#[derive(Drop)]
pub struct Restored {
    alloc: Global,
    /// Those that go on.
    pub resumed: Vec<ResumedTransaction>,
    /// Those that don't, and why.
    pub lost: Vec<(TransactionId, RestoreError)>,
    /// What the user may not have heard.
    pub pending: Vec<Indication>,
}

/// Restores the transactions of a journal on a station that was just made.
///
/// # Errors
///
/// `AllocError` if there is no memory to say what became of them: some may be restored by then.
pub fn restore<R: Restorable>(
    alloc: Global,
    station: &mut R,
    survey: Survey,
) -> Result<Restored, AllocError>
    // All that the user may not have heard is there, in order of opening.
    ensures { IfOk result (λ restored. restored.pending.items
        ≡ flat_map pending_in survey.transfers.items) }
{
    let mut restored = Restored {
        alloc,
        resumed: Vec::new(alloc),
        lost: Vec::new(alloc),
        pending: Vec::new(alloc),
    };
    for range in survey.forgotten() {
        let ForgottenRange { source, start, end } = *range;
        if station.restore_forgotten(source, start, end).is_err() {
            let id = TransactionId {
                source,
                number: start,
            };
            restored.lost.push((id, RestoreError::NotOurs))?;
        }
    }
    for slot in survey.into_transfers() {
        if let Some(transfer) = slot {
            restored.restores(station, transfer)?;
        }
    }
    Ok(restored)
}

impl Restored {
    /// Restores a transaction.
    fn restores<R: Restorable>(
        &mut self,
        station: &mut R,
        transfer: KeptTransfer,
    ) -> Result<(), AllocError>
        ensures { OnOk result (self.new.pending.items
            ≡ self.old.pending.items ++ pending_of transfer) }
    {
        let KeptTransfer { id, end, pending } = transfer;
        let (resumed, answer) = match end {
            KeptEnd::Sends(sender) => self.sender(station, sender, pending.is_some())?,
            KeptEnd::Receives(receiver) => self.receiver(station, receiver)?,
        };
        match answer {
            Ok(()) => self.resumed.push(resumed)?,
            Err(error) => self.lost.push((id, error))?,
        }
        if let Some(end) = pending {
            self.pending.push(indication_of(id, end))?;
        }
        Ok(())
    }

    /// Restores the record of a file that is sent. If the file isn't there any more as it was, the
    /// transaction is cancelled for that.
    fn sender<R: Restorable>(
        &self,
        station: &mut R,
        sender: KeptSender,
        is_pending: bool,
    ) -> Result<(ResumedTransaction, Result<(), RestoreError>), AllocError> {
        let transfer = &sender.transfer;
        let sent = sender.sent.min(transfer.size);
        let resumed = ResumedTransaction {
            id: transfer.addressing.id,
            name: Vec::from_slice(self.alloc, transfer.source.as_slice())?,
            destination: Vec::from_slice(self.alloc, transfer.destination.as_slice())?,
            octets: sent,
            size: Some(transfer.size),
            is_open: !sender.is_closed,
            is_taken_back: !sender.is_closed || is_pending && !sender.is_changed,
        };
        let spare = cancelled(copied(self.alloc, transfer)?, sender.eof_taken);
        let is_sending = !sender.is_closed && sender.cancelled_for.is_none();
        if is_sending {
            let _ = station.look_for(resumed.name.as_slice());
        }
        let sent = if is_sending { sent } else { 0 };
        let answer = match station.restore_sender(sender.committed(), sent) {
            Err(RestoreError::SourceFault | RestoreError::NoSuchFile | RestoreError::OtherSize) =>
                station.restore_sender(spare, 0),
            answer => answer,
        };
        Ok((resumed, answer))
    }

    /// Restores the record of a file that is received. If its part isn't there any more as far as
    /// it was held, the whole file is received again.
    fn receiver<R: Restorable>(
        &self,
        station: &mut R,
        receiver: KeptReceiver,
    ) -> Result<(ResumedTransaction, Result<(), RestoreError>), AllocError> {
        let (committed, held) = receiver.committed();
        let mut resumed = ResumedTransaction {
            id: committed.addressing.id,
            name: Vec::new(self.alloc),
            destination: Vec::new(self.alloc),
            octets: octets_in(&held),
            size: committed.ending.map(|ending| ending.size),
            is_open: committed.outcome.is_none(),
            is_taken_back: false,
        };
        if let Some(info) = &committed.metadata {
            resumed.name = Vec::from_slice(self.alloc, info.destination.as_slice())?;
        }
        let spare = copied_receiver(self.alloc, &committed)?;
        let answer = match station.restore_receiver(committed, held) {
            Err(RestoreError::ShortPart) => {
                resumed.octets = 0;
                station.restore_receiver(spare, Extents::new(self.alloc))
            }
            answer => answer,
        };
        Ok((resumed, answer))
    }
}

/// Returns how many offsets are held.
fn octets_in(held: &Extents) -> u64 {
    let mut octets: u64 = 0;
    for (start, end) in held.ranges() {
        octets = octets.saturating_add(end.saturating_sub(start));
    }
    octets
}

/// Returns a sender that is cancelled since its file isn't there any more.
fn cancelled(transfer: Transfer, eof_taken: bool) -> CommittedSender
    ensures { result ≡ record {
      transfer = transfer;
      phase = SenderPhase.Cancelling;
      suspended = false;
      eof_taken = eof_taken;
      acknowledged = false;
      condition = filestore_rejection;
    } }
{
    CommittedSender {
        transfer,
        phase: SenderPhase::Cancelling,
        suspended: false,
        eof_taken,
        acknowledged: false,
        condition: Condition::FILESTORE_REJECTION,
    }
}

/// Returns a copy of what is sent.
fn copied(alloc: Global, transfer: &Transfer) -> Result<Transfer, AllocError>
    ensures { IfOk result (λ copy. copy ≡ transfer.now) }
{
    Ok(Transfer {
        addressing: transfer.addressing,
        checksum_kind: transfer.checksum_kind,
        segment: transfer.segment,
        source: Octets::copied(alloc, transfer.source.as_slice())?,
        destination: Octets::copied(alloc, transfer.destination.as_slice())?,
        size: transfer.size,
    })
}

/// Returns a copy of what is kept of a receiver.
fn copied_receiver(alloc: Global, kept: &CommittedReceiver) -> Result<CommittedReceiver, AllocError>
    ensures { IfOk result (λ copy. copy ≡ kept.now) }
{
    let metadata = match &kept.metadata {
        Some(info) => Some(FileInfo {
            checksum_kind: info.checksum_kind,
            destination: Octets::copied(alloc, info.destination.as_slice())?,
        }),
        None => None,
    };
    Ok(CommittedReceiver {
        addressing: kept.addressing,
        large: kept.large,
        phase: kept.phase,
        suspended: kept.suspended,
        metadata,
        ending: kept.ending,
        outcome: kept.outcome,
    })
}

/// Returns what the user hears of an end.
fn indication_of(id: TransactionId, end: PendingEnd) -> Indication
    ensures { result ≡ indication_of id end }
{
    match end {
        PendingEnd::Finished(outcome) => Indication::Finished {
            id,
            condition: outcome.condition,
            delivery: outcome.delivery,
            status: outcome.status,
        },
        PendingEnd::Abandoned(condition) => Indication::Abandoned(id, condition),
    }
}
