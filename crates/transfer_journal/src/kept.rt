//! What a journal says of a transaction, once all of its records are put together.
ghost use Rattle.std.specs.Prelude.{◌≡◌, true, OnOk, Some};
ghost use Rattle.std.specs.FinSet as set;
ghost use Rattle.std.specs.Option.{option_map, option_or};
ghost use Rattle.cfdp_directives.specs.Pdu.Codes.{filestore_rejection};
ghost use Rattle.cfdp_extents.specs.Offsets.{union_of};
ghost use Rattle.transfer_journal.specs.Kept.{end_after, end_closed, kept_opened, kept_put};
ghost use Rattle.transfer_journal.specs.Kept.{pending_after, publication_of, receiver_after};
ghost use Rattle.transfer_journal.specs.Kept.{receiver_committed, receiver_ended, sender_after};
ghost use Rattle.transfer_journal.specs.Kept.{sender_committed, transfer_after};

use crate::ranges::add_all;
use cfdp_directives::{Addressing, Condition, Octets, Outcome};
use cfdp_extents::Extents;
use cfdp_header::TransactionId;
use cfdp_receiver::{CommittedReceiver, Ending, FileInfo, ReceiverPhase};
use cfdp_sender::{CommittedSender, SenderPhase, Transfer};
use journal_records::JournalRecord;
use std::alloc::{AllocError, Global};

/// An end that the user may not have heard of.
#[derive(Clone, Copy, Debug)]
pub enum PendingEnd {
    /// The transaction finished so.
    Finished(Outcome),
    /// It was abandoned because of this condition.
    Abandoned(Condition),
}

/// A file that is sent.
#[derive(Debug, Drop)]
pub struct KeptSender {
    /// What is sent, and how.
    pub transfer: Transfer,
    /// How many octets of the file were sent at least.
    pub sent: u64,
    /// Whether an EOF was sent.
    pub eof_taken: bool,
    /// Why it is being cancelled, if it is.
    pub cancelled_for: Option<Condition>,
    /// Whether it is suspended.
    pub is_suspended: bool,
    /// Whether it is over.
    pub is_closed: bool,
    /// Whether another file may have the name by now of the one that was put.
    pub is_changed: bool,
}

impl KeptSender {
    /// Returns what is kept of a put that was just accepted.
    pub fn put(transfer: Transfer) -> KeptSender
        ensures { result ≡ kept_put transfer }
    {
        KeptSender {
            transfer,
            sent: 0,
            eof_taken: false,
            cancelled_for: None,
            is_suspended: false,
            is_closed: false,
            is_changed: false,
        }
    }

    /// Notes that another file may have the name by now: the put is cancelled, unless it is over.
    pub fn changes(&mut self)
        ensures { self.new ≡ record self.old {
          is_changed = true;
          cancelled_for = option_or self.old.cancelled_for (Some filestore_rejection);
        } }
    {
        self.is_changed = true;
        if self.cancelled_for.is_none() {
            self.cancelled_for = Some(Condition::FILESTORE_REJECTION);
        }
    }

    /// Returns `true` if it is open, and its file has these names in the outbox and at the peer.
    pub fn is_of(&self, source: &[u8], destination: &[u8]) -> bool {
        !self.is_closed
            && self.transfer.source.as_slice() == source
            && self.transfer.destination.as_slice() == destination
    }

    /// Notes what a record says of it.
    pub(crate) fn takes(&mut self, record: &JournalRecord)
        ensures { self.new ≡ sender_after «record».now self.old }
    {
        match record {
            JournalRecord::Sent(_, sent) => self.sent = *sent,
            JournalRecord::EofTaken(_) => self.eof_taken = true,
            JournalRecord::Cancelling(_, condition) => self.cancelled_for = Some(*condition),
            JournalRecord::Suspended(_, is_suspended) => self.is_suspended = *is_suspended,
            JournalRecord::Finishing(..) | JournalRecord::Closed(..) => self.is_closed = true,
            _ => {}
        }
    }

    /// Returns what a station restores of it.
    pub fn committed(self) -> CommittedSender
        ensures { result ≡ sender_committed self }
    {
        let phase = if self.is_closed {
            SenderPhase::Closed
        } else if self.cancelled_for.is_some() {
            SenderPhase::Cancelling
        } else {
            SenderPhase::Sending
        };
        CommittedSender {
            transfer: self.transfer,
            phase,
            suspended: self.is_suspended && phase == SenderPhase::Sending,
            eof_taken: self.eof_taken,
            acknowledged: false,
            condition: self.cancelled_for.unwrap_or(Condition::NO_ERROR),
        }
    }
}

/// A file that was about to be published.
#[derive(Debug, Drop)]
pub struct Publication {
    /// The file's name.
    pub name: Octets,
    /// Octets of the file.
    pub size: u64,
}

/// A file that is received.
#[derive(Debug, Drop)]
pub struct KeptReceiver {
    /// The transaction, its two ends, and how wide they are written.
    pub addressing: Addressing,
    /// Whether a PDU with the large file flag was received.
    pub large: bool,
    /// What Metadata said, if it was received.
    pub metadata: Option<FileInfo>,
    /// What the EOF without an error said, if it was received.
    pub ending: Option<Ending>,
    /// Which offsets of the file are held.
    pub held: Extents,
    /// The file, if it was about to be published, and the end isn't noted.
    pub publishing: Option<Publication>,
    /// How far it has come.
    pub phase: ReceiverPhase,
    /// How it ended, if it did.
    pub outcome: Option<Outcome>,
    /// Whether it is suspended.
    pub is_suspended: bool,
}

impl KeptReceiver {
    /// Returns what is kept of a receiver that was just opened.
    pub fn opened(alloc: Global, addressing: Addressing, large: bool) -> KeptReceiver
        ensures { result ≡ kept_opened addressing large }
    {
        KeptReceiver {
            addressing,
            large,
            metadata: None,
            ending: None,
            held: Extents::new(alloc),
            publishing: None,
            phase: ReceiverPhase::Receiving,
            outcome: None,
            is_suspended: false,
        }
    }

    /// Notes how it ended.
    pub fn ends(&mut self, phase: ReceiverPhase, outcome: Option<Outcome>)
        ensures { self.new ≡ receiver_ended phase outcome self.old }
    {
        self.phase = phase;
        self.outcome = outcome;
        self.publishing = None;
    }

    /// Adds ranges to what is held.
    ///
    /// # Errors
    ///
    /// `AllocError` if there is no memory for them.
    pub fn holds(&mut self, large: bool, ranges: &[(u64, u64)]) -> Result<(), AllocError>
        ensures { OnOk result (self.new ≡ record self.old {
          large = large;
          held = set.union self.old.held (union_of ranges.now);
        }) }
    {
        self.large = large;
        add_all(&mut self.held, ranges)
    }

    /// Notes what a record says of it.
    ///
    /// # Errors
    ///
    /// `AllocError` if there is no memory for that.
    pub(crate) fn takes(&mut self, record: JournalRecord) -> Result<(), AllocError>
        ensures { OnOk result (self.new ≡ receiver_after «record» self.old) }
    {
        match record {
            JournalRecord::HeardMetadata(_, info) => self.metadata = Some(info),
            JournalRecord::HeardEof(_, ending) => self.ending = Some(ending),
            JournalRecord::Held(_, large, ranges) => self.holds(large, ranges.as_slice())?,
            JournalRecord::Publishing(_, name, size) => {
                self.publishing = Some(Publication { name, size });
            }
            JournalRecord::Finishing(_, outcome) => {
                self.ends(ReceiverPhase::Finishing, Some(outcome));
            }
            JournalRecord::Closed(_, outcome) => self.ends(ReceiverPhase::Closed, outcome),
            JournalRecord::Suspended(_, is_suspended) => self.is_suspended = is_suspended,
            other => drop(other),
        }
        Ok(())
    }

    /// Returns what a station restores of it, and what it held.
    pub fn committed(self) -> (CommittedReceiver, Extents)
        ensures committed { result.0 ≡ receiver_committed self }
        ensures held { result.1 ≡ self.held }
    {
        let committed = CommittedReceiver {
            addressing: self.addressing,
            large: self.large,
            phase: self.phase,
            suspended: self.is_suspended && self.phase == ReceiverPhase::Receiving,
            metadata: self.metadata,
            ending: self.ending,
            outcome: self.outcome,
        };
        (committed, self.held)
    }
}

/// Which side of a transfer the station is.
#[derive(Debug, Drop)]
pub enum KeptEnd {
    /// It sends the file.
    Sends(KeptSender),
    /// It receives the file.
    Receives(KeptReceiver),
}

impl KeptEnd {
    /// Notes how far the transaction has come at its end: a sender is over then.
    pub fn ends(&mut self, phase: ReceiverPhase, outcome: Option<Outcome>)
        ensures { self.new ≡ end_closed phase outcome self.old }
    {
        match self {
            KeptEnd::Sends(sender) => sender.is_closed = true,
            KeptEnd::Receives(receiver) => receiver.ends(phase, outcome),
        }
    }

    // Notes what a record says of it.
    fn takes(&mut self, record: JournalRecord) -> Result<(), AllocError>
        ensures { OnOk result (self.new ≡ end_after «record» self.old) }
    {
        match self {
            KeptEnd::Sends(sender) => {
                sender.takes(&record);
                drop(record);
                Ok(())
            }
            KeptEnd::Receives(receiver) => receiver.takes(record),
        }
    }
}

/// A transaction of a journal.
#[derive(Debug, Drop)]
pub struct KeptTransfer {
    /// Which it is.
    pub id: TransactionId,
    /// Which side the station is, and how far it has come.
    pub end: KeptEnd,
    /// An end that the user may not have heard of.
    pub pending: Option<PendingEnd>,
}

impl KeptTransfer {
    /// Returns the file that was about to be published, if one was.
    pub fn publication(&self) -> Option<&Publication>
        ensures { option_map (λ file. file.now) result ≡ publication_of self.now.end }
    {
        match &self.end {
            KeptEnd::Sends(_) => None,
            KeptEnd::Receives(receiver) => receiver.publishing.as_ref(),
        }
    }

    /// Notes that it finished so, and that the user may not have heard of it.
    pub fn finishes(&mut self, outcome: &Outcome)
        ensures { self.new ≡ record self.old {
          pending = Some (PendingEnd.Finished outcome.now);
          end = end_closed ReceiverPhase.Finishing (Some outcome.now) self.old.end;
        } }
    {
        self.pending = Some(PendingEnd::Finished(*outcome));
        self.end.ends(ReceiverPhase::Finishing, Some(*outcome));
    }

    /// Notes what a record says of it.
    ///
    /// # Errors
    ///
    /// `AllocError` if there is no memory for that.
    pub(crate) fn takes(&mut self, record: JournalRecord) -> Result<(), AllocError>
        ensures { OnOk result (self.new ≡ transfer_after «record» self.old) }
    {
        self.pending = pending_after(&record, self.pending);
        self.end.takes(record)
    }
}

// Returns the end that the user may not have heard of, after a record.
fn pending_after(record: &JournalRecord, pending: Option<PendingEnd>) -> Option<PendingEnd>
    ensures { result ≡ pending_after «record».now pending }
{
    match record {
        JournalRecord::PendingFinished(_, outcome) => Some(PendingEnd::Finished(*outcome)),
        JournalRecord::PendingAbandoned(_, condition) => Some(PendingEnd::Abandoned(*condition)),
        _ => pending,
    }
}
