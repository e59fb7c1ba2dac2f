//! What the socket of a station and its onlookers say to each other.
use crate::beacon::Beacon;
use crate::drops::CarrierTally;
use crate::lost_frames::FrameGaps;
use crate::notes::NoteQueue;
use crate::refusals::RefusalTally;
use crate::watched::Watched;
use frame_security::LinkKeys;
use std::alloc::Global;
use std::cell::Cell;
use std::io::ErrorKind;

/// Why a station can't reserve numbers in its state file.
#[derive(Clone, Copy)]
pub enum Stop {
    /// All numbers are used.
    Spent,
    /// The file can't be written.
    Unwritable(ErrorKind),
}

/// What the socket of a station and its onlookers say to each other.
#[derive(Drop)]
pub struct Exchange {
    /// Whether the peer seems to be set up otherwise: frames or PDUs of its came that aren't for
    /// this station, or its beacon said so.
    pub differs: Cell<bool>,
    /// The peer's beacon, if one came that nobody has looked at.
    pub beacon: Cell<Option<Beacon>>,
    /// Why the system failed to send or to receive, if nobody has looked at that.
    pub failed: Cell<Option<ErrorKind>>,
    /// Why no more frames leave: their counts can't be reserved. `None` if they can.
    pub no_counts: Cell<Option<Stop>>,
    /// Why no more puts are made: their transaction numbers can't be reserved. `None` if they can.
    pub no_numbers: Cell<Option<Stop>>,
    /// Why accepted frames of a secured link are lost: their sequence numbers can't be kept. `None`
    /// if they can.
    pub no_accepting: Cell<Option<Stop>>,
    /// The keys to which a secured wire changes in its next turn, if it does.
    pub new_keys: Cell<Option<LinkKeys>>,
    /// Whether the link is down by plan: nothing leaves, what comes is discarded, and the time
    /// that the station is given stands still.
    pub is_frozen: Cell<bool>,
    /// What else a wait looks at, so that it ends once a command may have come.
    pub watched: Cell<Watched>,
    /// How many transaction numbers are reserved and not used.
    pub numbers_left: Cell<u64>,
    /// Whether more are wanted.
    pub wants_numbers: Cell<bool>,
    /// Whether something was asked of the station, so that the next wait is none.
    pub is_stirred: Cell<bool>,
    /// The time that the station was given last.
    pub told: Cell<u64>,
    /// How many frames were found missing, and how many datagrams were discarded.
    pub gaps: FrameGaps,
    /// How often datagrams were dropped that gave nothing to the station.
    pub dropped: CarrierTally,
    /// How many frames of a secured link were refused.
    pub refused: RefusalTally,
    /// How many transactions an EOF cancelled before anything of them arrived.
    pub unknown_cancels: Cell<u64>,
    /// How many octets of frames left, and how many came. Each count stays at 2^64 - 1.
    pub octets_sent: Cell<u64>,
    pub octets_received: Cell<u64>,
    /// What is reported to the operator, until the log has it.
    pub notes: NoteQueue,
}

impl Exchange {
    /// Returns the state before the first turn.
    pub fn new(alloc: Global) -> Exchange {
        Exchange {
            differs: Cell::new(false),
            beacon: Cell::new(None),
            failed: Cell::new(None),
            no_counts: Cell::new(None),
            no_numbers: Cell::new(None),
            no_accepting: Cell::new(None),
            new_keys: Cell::new(None),
            is_frozen: Cell::new(false),
            watched: Cell::new(Watched::nothing()),
            numbers_left: Cell::new(0),
            wants_numbers: Cell::new(false),
            is_stirred: Cell::new(false),
            told: Cell::new(0),
            gaps: FrameGaps::new(),
            dropped: CarrierTally::new(),
            refused: RefusalTally::new(),
            unknown_cancels: Cell::new(0),
            octets_sent: Cell::new(0),
            octets_received: Cell::new(0),
            notes: NoteQueue::new(alloc),
        }
    }
}
