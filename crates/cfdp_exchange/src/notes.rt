//! What a station reports to its operator while it runs, until the station's log has it.
use crate::beacon::Agreed;
use crate::drops::CarrierDrop;
use crate::refusals::refusal_name;
use cfdp_header::TransactionId;
use cfdp_station::{EntityDrop, LinkDrop};
use frame_security::FrameRefusal;
use std::alloc::Global;
use std::cell::RefCell;

/// The most notes that wait for the log. Further notes are on standard error alone.
const MOST_NOTES: usize = 256;

/// Whether a station goes on as it did, or a call failed.
#[derive(Clone, Copy, Debug, PartialEq, Eq)]
pub enum NoteKind {
    /// Something needs attention, and the station goes on.
    Note,
    /// A call for a file or a folder failed.
    Error,
}

impl NoteKind {
    /// Returns the word with which it begins on standard error, and its name in the log.
    pub fn word(self) -> &'static str {
        match self {
            NoteKind::Note => "note",
            NoteKind::Error => "error",
        }
    }
}

/// What a note is about.
#[derive(Clone, Copy)]
pub enum NoteTopic {
    /// Frames and packets that were dropped for this cause.
    Link(LinkDrop),
    /// PDUs that were dropped for this cause.
    Pdu(EntityDrop),
    /// Datagrams that were dropped for this cause.
    Datagram(CarrierDrop),
    /// Frames of a secured link that were refused for this cause.
    Refused(FrameRefusal),
    /// A setting in which the peer differs.
    Differs(Agreed),
    /// The system failed to send or to receive.
    Socket,
    /// Numbers can't be reserved in the state file.
    StateFile,
    /// The journal, and what goes on by it.
    Journal,
    /// Frames that arrive out of order, or twice.
    Order,
    /// A transaction that waits for the peer's Finished.
    Finished,
    /// A transaction that was cancelled before anything of it arrived.
    UnknownCancel,
    /// Times that end a transaction before anything is repeated.
    Timers,
    /// Whether frames are authenticated.
    Authentication,
    /// A file beyond the limits of what is received.
    Limits,
    /// A file that arrived at a station without an inbox.
    NoInbox,
    /// A file or folder of the inbox.
    Inbox,
    /// A file or folder of the outbox.
    Outbox,
    /// A file or folder of the spool.
    Spool,
    /// The address for commands.
    Control,
    /// The address of the console.
    Console,
    /// The station's own address.
    Listening,
}

impl NoteTopic {
    /// Returns the word by which the log, the console and the metrics name it.
    pub fn name(self) -> &'static str {
        match self {
            NoteTopic::Link(by) => by.name(),
            NoteTopic::Pdu(by) => by.name(),
            NoteTopic::Datagram(by) => by.name(),
            NoteTopic::Refused(by) => refusal_name(by),
            NoteTopic::Differs(setting) => setting.name(),
            NoteTopic::Socket => "socket",
            NoteTopic::StateFile => "state-file",
            NoteTopic::Journal => "journal",
            NoteTopic::Order => "order",
            NoteTopic::Finished => "finished",
            NoteTopic::UnknownCancel => "unknown-cancel",
            NoteTopic::Timers => "timers",
            NoteTopic::Authentication => "authentication",
            NoteTopic::Limits => "limits",
            NoteTopic::NoInbox => "no-inbox",
            NoteTopic::Inbox => "inbox",
            NoteTopic::Outbox => "outbox",
            NoteTopic::Spool => "spool",
            NoteTopic::Control => "control",
            NoteTopic::Console => "console",
            NoteTopic::Listening => "listening",
        }
    }
}

/// What a station reports to its operator while it runs.
#[derive(Drop)]
pub struct Note {
    pub kind: NoteKind,
    /// What it is about: of two notes on one topic the later one holds.
    pub topic: NoteTopic,
    /// The line, without `note: ` or `error: ` and its end.
    pub text: String,
    /// The transaction that it is about, if it is about one.
    pub id: Option<TransactionId>,
}

/// The notes that the station's log doesn't have yet. Whoever reports something to the operator
/// adds a note, and the log takes all notes between two turns.
#[derive(Drop)]
pub struct NoteQueue {
    alloc: Global,
    notes: RefCell<Vec<Note>>,
}

impl NoteQueue {
    /// Returns a queue without notes.
    pub fn new(alloc: Global) -> NoteQueue {
        NoteQueue {
            alloc,
            notes: RefCell::new(Vec::new(alloc)),
        }
    }

    /// Adds a note, if there is room and memory for it.
    pub fn adds(&self, note: Note) {
        if let Ok(mut notes) = self.notes.try_borrow_mut()
            && notes.len() < MOST_NOTES
        {
            let _ = notes.push(note);
        }
    }

    /// Takes all notes, in the order in which they were added.
    pub fn take(&self) -> Vec<Note> {
        match self.notes.try_replace(Vec::new(self.alloc)) {
            Ok(notes) => notes,
            Err(_) => Vec::new(self.alloc),
        }
    }
}
