// What a record has due. It is found once, and what is asked of it is derived of that.
ghost use Rattle.std.specs.Prelude.{◌≡◌};
ghost use Rattle.cfdp_entity.specs.Found.{counts_as, is_data};

use crate::sent::SentPdu;
use cfdp_receiver::Due;
use cfdp_sender::SenderDue;

/// What the machine of a record has due, if anything.
#[derive(Clone, Copy)]
pub enum RecordDue {
    /// What a sender has due.
    Sends(Option<SenderDue>),
    /// What a receiver has due.
    Receives(Option<Due>),
}

impl RecordDue {
    /// Returns `true` if it is file data; all others are directives.
    pub(crate) fn is_file_data(&self) -> bool
        ensures { result ≡ is_data self.now }
    {
        match self {
            RecordDue::Sends(Some(due)) => due.is_file_data(),
            RecordDue::Sends(None) | RecordDue::Receives(_) => false,
        }
    }

    /// Returns what it counts as, once it is sent.
    pub(crate) fn counts_as(&self) -> Option<SentPdu>
        ensures { result ≡ counts_as self.now }
    {
        match self {
            RecordDue::Sends(due) => Some(SentPdu::of_sender((*due)?)),
            RecordDue::Receives(due) => Some(SentPdu::of_receiver((*due)?)),
        }
    }
}

/// What a record has due, as it was found.
#[derive(Clone, Copy)]
pub struct FoundDue {
    /// What its machine has due.
    pub due: RecordDue,
    /// The number of octets of that PDU, 0 if nothing is due.
    pub len: usize,
}
