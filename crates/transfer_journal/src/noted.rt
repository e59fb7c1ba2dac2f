//! What the journal has of a transaction already.
ghost use Rattle.std.specs.Prelude.{◌≡◌};
ghost use Rattle.transfer_journal.specs.Noted.{opened_noted};

use cfdp_extents::Extents;
use cfdp_receiver::ReceiverPhase;
use std::alloc::Global;

/// What the journal has of a file that is sent.
#[derive(Clone, Copy, Debug, PartialEq, Eq)]
pub struct NotedSender {
    /// How many octets of the file were sent.
    pub sent: u64,
    /// Whether an EOF was sent.
    pub eof_taken: bool,
    /// Whether it is being cancelled.
    pub is_cancelling: bool,
    /// Whether it is suspended.
    pub is_suspended: bool,
    /// Whether it is over.
    pub is_closed: bool,
}

impl NotedSender {
    /// What is noted of a put that was just accepted.
    pub const PUT: NotedSender = NotedSender {
        sent: 0,
        eof_taken: false,
        is_cancelling: false,
        is_suspended: false,
        is_closed: false,
    };
}

/// What the journal has of a file that is received.
#[derive(Debug, Drop)]
pub struct NotedReceiver {
    /// Whether Metadata was received.
    pub has_metadata: bool,
    /// Whether an EOF without an error was received.
    pub has_ending: bool,
    /// How far the transaction has come.
    pub phase: ReceiverPhase,
    /// Whether it is suspended.
    pub is_suspended: bool,
    /// Whether a PDU with the large file flag was received.
    pub is_large: bool,
    /// Which offsets of the file are held.
    pub held: Extents,
}

impl NotedReceiver {
    /// Returns what is noted of a receiver that was just opened.
    pub fn opened(alloc: Global, is_large: bool) -> NotedReceiver
        ensures { result ≡ opened_noted is_large }
    {
        NotedReceiver {
            has_metadata: false,
            has_ending: false,
            phase: ReceiverPhase::Receiving,
            is_suspended: false,
            is_large,
            held: Extents::new(alloc),
        }
    }
}

/// What the journal has of a transaction.
#[derive(Debug, Drop)]
pub enum Noted {
    /// It sends a file.
    Sends(NotedSender),
    /// It receives a file.
    Receives(NotedReceiver),
    /// It sends a file that had no names any more when it was first noted.
    Unnamed,
    /// The station has forgotten it since the last batch. Its end may not be in the log yet.
    Gone,
}
