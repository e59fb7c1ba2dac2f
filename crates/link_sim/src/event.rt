use aos_frame::Lane;
use cfdp_directives::Octets;
use cfdp_header::TransactionId;
use station_pair::{Refusal, Side};

/// One thing that happens: a call on one of the two stations, or a frame between them that arrives,
/// is lost or comes damaged.
#[derive(Debug, Drop)]
pub enum Event {
    /// A station's user asks it to send a file to the other station.
    Put {
        /// The station that sends.
        at: Side,
        /// The file's name in that station's outbox, which must have 1 to 255 octets.
        source: Octets,
        /// The file's name at the other station, which must have 1 to 255 octets.
        destination: Octets,
    },
    /// A station's user gives a transaction up.
    Cancel {
        at: Side,
        id: TransactionId,
    },
    /// A station's user suspends a transaction.
    Suspend {
        at: Side,
        id: TransactionId,
    },
    /// A station's user lets a suspended transaction go on.
    Resume {
        at: Side,
        id: TransactionId,
    },
    /// A sender's user asks the receiver for a Keep Alive or for a NAK.
    Prompt {
        at: Side,
        id: TransactionId,
        keep_alive: bool,
    },
    /// A station sends its next PDU, if one is due.
    Poll(Side),
    /// A station fills its begun frame of each lane, if one is begun.
    Flush(Side),
    /// A station is given the time, and timers that are due expire.
    Tick {
        at: Side,
        now: u64,
    },
    /// The oldest waiting frame that this station sent in this lane reaches the other one.
    Deliver(Side, Lane),
    /// The oldest waiting frame that this station sent in this lane is lost.
    Strike(Side, Lane),
    /// The oldest waiting frame that a station sent in a lane comes to the other one damaged. So it
    /// is lost, and the other one counts that it dropped it. The link must have error control:
    /// others know no damaged frames.
    Damage {
        /// The station that sent it.
        side: Side,
        lane: Lane,
        /// What comes in its place: it must have as many octets, and its check must differ.
        octets: Octets,
    },
}

/// What an event did.
#[derive(Clone, Copy, Debug, PartialEq, Eq)]
pub enum Applied {
    /// It happened.
    Applied,
    /// There was nothing to do, and nothing changed.
    Nothing,
    /// It was refused, and no transaction and no frame changed.
    Refused(Refusal),
}

/// A file that a station took to send: its transaction and its two names.
#[derive(Debug, Drop)]
pub struct AcceptedPut {
    /// The transaction that sends it.
    pub id: TransactionId,
    /// The file's name in the sender's outbox.
    pub source: Octets,
    /// The file's name at the receiver.
    pub destination: Octets,
}
