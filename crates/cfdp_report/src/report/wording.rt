//! How reports and dumps word what they share.
ghost use Rattle.std.specs.Prelude.{◌≡◌, Some};
ghost use Rattle.cfdp_report.specs.Report.Wording.{id_text};

use cfdp_directives::{Delivery, FileStatus, Phase};
use cfdp_header::TransactionId;
use std::fmt;

/// A transaction, by its source and its number.
#[derive(Clone, Copy)]
pub struct Id(pub TransactionId);

impl fmt::Display for Id {
    ghost output = { λ id. Some (id_text id.0) };

    fn fmt<W: fmt::Write>(&self, f: &mut fmt::Formatter<W>) -> fmt::Result {
        write!(f, "{}:{}", self.0.source, self.0.number)
    }
}

/// Returns the word for a delivery code.
pub fn delivery_word(delivery: Delivery) -> &'static str
    ensures { result.now ≡ Rattle.cfdp_report.specs.Report.Wording.delivery_word delivery }
{
    match delivery {
        Delivery::Complete => "complete",
        Delivery::Incomplete => "incomplete",
    }
}

/// Returns the word for a file status.
pub fn status_word(status: FileStatus) -> &'static str
    ensures { result.now ≡ Rattle.cfdp_report.specs.Report.Wording.status_word status }
{
    match status {
        FileStatus::Discarded => "discarded",
        FileStatus::Rejected => "rejected",
        FileStatus::Retained => "retained",
        FileStatus::Unreported => "unreported",
    }
}

/// Returns the word for how far a transaction has come.
pub fn phase_word(phase: Phase) -> &'static str {
    match phase {
        Phase::Sending => "sending",
        Phase::Cancelling => "cancelling",
        Phase::Receiving => "receiving",
        Phase::Finishing => "finishing",
        Phase::Closed => "closed",
    }
}

/// Returns what the condition of this code says (CCSDS 727.0-B-5, table 5-5).
pub fn condition_words(code: u8) -> &'static str {
    match code {
        0 => "no error",
        1 => "ACK limit reached: no acknowledgement of an EOF or a Finished",
        2 => "keep-alive limit reached: the receiver is too far behind",
        3 => "unsupported transmission mode",
        4 => "filestore rejection: the file cannot be stored or read",
        5 => "checksum failure: the received file differs from the sent one",
        6 => "file size error: file data passes the end of the file",
        7 => "NAK limit reached: data is still missing after all allowed requests",
        8 => "inactivity: no PDU of the transaction arrived in time",
        10 => "check limit reached: the file is still incomplete",
        11 => "unsupported checksum type",
        14 => "suspended by a user",
        15 => "cancelled by a user",
        _ => "no meaning in the standard",
    }
}

/// Returns the standard's name of the condition of this code, in one word (CCSDS 727.0-B-5, table
/// 5-5).
pub fn condition_name(code: u8) -> &'static str {
    match code {
        0 => "NO_ERROR",
        1 => "POSITIVE_ACK_LIMIT_REACHED",
        2 => "KEEP_ALIVE_LIMIT_REACHED",
        3 => "INVALID_TRANSMISSION_MODE",
        4 => "FILESTORE_REJECTION",
        5 => "FILE_CHECKSUM_FAILURE",
        6 => "FILE_SIZE_ERROR",
        7 => "NAK_LIMIT_REACHED",
        8 => "INACTIVITY_DETECTED",
        9 => "INVALID_FILE_STRUCTURE",
        10 => "CHECK_LIMIT_REACHED",
        11 => "UNSUPPORTED_CHECKSUM_TYPE",
        14 => "SUSPEND_REQUEST_RECEIVED",
        15 => "CANCEL_REQUEST_RECEIVED",
        _ => "RESERVED",
    }
}
