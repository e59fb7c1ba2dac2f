use crate::ranges::RangeList;
use cfdp_directives::{Addressing, Condition, Octets, Outcome};
use cfdp_header::TransactionId;
use cfdp_receiver::{Ending, FileInfo};
use cfdp_sender::Transfer;

/// Whose journal it is.
#[derive(Clone, Copy, Debug)]
pub struct Owner {
    /// The station's entity id.
    pub entity: u64,
    /// The entity id of its peer.
    pub peer: u64,
    /// How often the station had started when the journal was begun.
    pub start: u64,
}

/// What a station notes in its journal, so that its transactions can go on after a restart.
///
/// The records of one transaction add to each other, in their order: the last one of a kind counts;
/// the ranges of [`Held`](JournalRecord::Held) count all together.
#[derive(Debug, Drop)]
pub enum JournalRecord {
    /// Whose journal it is: its first record.
    Station(Owner),
    /// A put was accepted, so this station sends a file.
    Put(Transfer),
    /// The sender sent the file's front, up to this offset.
    Sent(TransactionId, u64),
    /// The sender's EOF was taken to be sent, so the whole file had been sent before.
    EofTaken(TransactionId),
    /// The sender was cancelled, because of this condition.
    Cancelling(TransactionId, Condition),
    /// A receiver was opened. The flag says whether a PDU with the large file flag was received.
    Opened(Addressing, bool),
    /// The receiver received Metadata.
    HeardMetadata(TransactionId, FileInfo),
    /// The receiver received an EOF without an error.
    HeardEof(TransactionId, Ending),
    /// The receiver holds these offsets too. The flag is the same as in `Opened`, as it is now.
    Held(TransactionId, bool, RangeList),
    /// The receiver has the whole file, and publishes it next, under this name and with so many
    /// octets.
    Publishing(TransactionId, Octets, u64),
    /// The receiver ended so, and its Finished isn't acknowledged yet.
    Finishing(TransactionId, Outcome),
    /// The transaction is over at this station. If a receiver indicated how it ended, it keeps
    /// that.
    Closed(TransactionId, Option<Outcome>),
    /// Whether the transaction is suspended.
    Suspended(TransactionId, bool),
    /// The user hasn't received this Finished yet.
    PendingFinished(TransactionId, Outcome),
    /// The user hasn't received yet that the transaction was abandoned because of this condition.
    PendingAbandoned(TransactionId, Condition),
    /// Transactions of this source, with these numbers, are forgotten.
    Forgotten(u64, RangeList),
}

/// What kind of record it is. The first octet of a record says so.
#[derive(Clone, Copy)]
pub enum RecordKind {
    Station,
    Put,
    Sent,
    EofTaken,
    Cancelling,
    Opened,
    HeardMetadata,
    HeardEof,
    Held,
    Publishing,
    Finishing,
    Closed,
    Suspended,
    PendingFinished,
    PendingAbandoned,
    Forgotten,
}
