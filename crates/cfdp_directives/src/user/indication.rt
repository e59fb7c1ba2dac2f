use crate::pdu::codes::{Condition, Delivery, FileStatus};
use crate::pdu::octets::Octets;
use cfdp_header::TransactionId;

/// What an entity indicates to its user of a transaction (CCSDS 727.0-B-5, section 3).
#[derive(Debug, Drop, PartialEq, Eq)]
pub enum Indication {
    /// A put was accepted and has this id.
    Transaction(TransactionId),
    /// The EOF was sent for the first time.
    EofSent(TransactionId),
    /// Metadata was received for the first time.
    MetadataRecv {
        id: TransactionId,
        /// The file's name at its sender.
        source: Octets,
        /// The file's name at this entity.
        destination: Octets,
        /// Octets of the file.
        size: u64,
    },
    /// An EOF without an error was received for the first time.
    EofRecv(TransactionId),
    /// The transaction is over at this entity.
    Finished {
        id: TransactionId,
        condition: Condition,
        delivery: Delivery,
        status: FileStatus,
    },
    /// The transaction is suspended: until it is resumed nothing of it is sent, and no time runs
    /// for it. The condition says why: 14 if the user asked for it, otherwise the condition of the
    /// fault.
    Suspended(TransactionId, Condition),
    /// The transaction goes on after it was suspended.
    Resumed(TransactionId),
    /// Something went wrong.
    Fault(TransactionId, Condition),
    /// The transaction was given up because of this condition: it is closed here, and the other
    /// entity isn't notified.
    Abandoned(TransactionId, Condition),
    /// The receiver says up to which offset it holds the file.
    Progress(TransactionId, u64),
}
