//! What a station shows of itself.
use crate::ledger::{Ledger, Way};
use crate::log_lines::LogLines;
use crate::ranges::RangeSummary;
use crate::samples::{FrameCounts, Samples};
use cfdp_header::TransactionId;

/// What a station shows of itself: filled again each time that it is asked.
#[derive(Drop)]
pub struct Status {
    /// The ids of its entity and of its peer's.
    pub station: u64,
    pub peer: u64,
    /// The version of the program.
    pub version: &'static str,
    /// The time in milliseconds since 1970; 0 if the clock can't be read.
    pub time: u64,
    /// The whole seconds since it was started.
    pub seconds: u64,
    pub link: LinkStatus,
    /// How many transactions are open, and how many files wait for their put.
    pub open: u64,
    pub waiting: u64,
    /// The open ones by how far they have come.
    pub phases: OpenPhases,
    /// Units of the clock to the next time-out.
    pub timeout: Option<u64>,
    pub counters: ShownCounters,
    /// The conditions by which transactions failed.
    pub failed: Vec<Failed>,
    /// How many notes and errors there were, and the last note on each topic.
    pub told: Told,
    pub notes: Vec<NoteShown>,
    /// The causes by which something was dropped.
    pub dropped: Vec<Dropped>,
}

/// How many transactions are open, by how far they have come.
#[derive(Clone, Copy)]
pub struct OpenPhases {
    pub sending: u64,
    pub cancelling: u64,
    pub receiving: u64,
    pub finishing: u64,
}

impl OpenPhases {
    /// None is open.
    pub const NONE: OpenPhases = OpenPhases {
        sending: 0,
        cancelling: 0,
        receiving: 0,
        finishing: 0,
    };

    /// Returns how many are open.
    pub fn sum(self) -> u64 {
        self.sending
            .saturating_add(self.cancelling)
            .saturating_add(self.receiving)
            .saturating_add(self.finishing)
    }
}

/// How many transactions failed by a condition.
#[derive(Clone, Copy)]
pub struct Failed {
    /// Whether they sent a file or received one.
    pub way: Way,
    /// The condition's code and the standard's name of it.
    pub code: u64,
    pub condition: &'static str,
    pub count: u64,
}

/// The last note for the operator on a topic.
#[derive(Drop)]
pub struct NoteShown {
    pub topic: &'static str,
    /// Whether a call for a file or a folder failed.
    pub is_error: bool,
    pub text: String,
    /// How many notes there were on the topic.
    pub count: u64,
    /// How many seconds ago that was last.
    pub age: u64,
    /// Whether that was so lately that it may still be so.
    pub holds: bool,
}

/// What a link is, and what passed over it.
#[derive(Drop)]
pub struct LinkStatus {
    /// Whether it is down by plan.
    pub is_frozen: bool,
    /// What a datagram is.
    pub carrier: &'static str,
    /// Whether frames are authenticated: only who has the keys can send them.
    pub is_authenticated: bool,
    /// The peer's address.
    pub to: String,
    /// For how many whole seconds nothing came; `None` if nothing has come yet.
    pub silent: Option<u64>,
    pub frames: FrameCounts,
    /// Octets of frames that left and that came.
    pub octets_sent: u64,
    pub octets_received: u64,
    /// Datagrams that came while the link was down by plan.
    pub thrown_away: u64,
    /// The operational control field of the last frame that came, if frames have one.
    pub control_field: Option<u64>,
}

/// What a station counted, as the command `counters` of its control address says it.
#[derive(Clone, Copy)]
pub struct ShownCounters {
    pub files_sent: u64,
    pub octets_sent: u64,
    pub files_received: u64,
    pub octets_received: u64,
    pub files_failed: u64,
    pub puts_made: u64,
    pub puts_refused: u64,
    pub pdus_sent: u64,
    pub file_data_sent: u64,
    pub file_data_sent_again: u64,
    pub naks_sent: u64,
    pub sends_failed: u64,
}

/// How many notes and errors there were for the operator.
#[derive(Clone, Copy)]
pub struct Told {
    pub notes: u64,
    pub errors: u64,
}

/// How often something was dropped by a cause.
#[derive(Clone, Copy)]
pub struct Dropped {
    /// What drops it: `datagram`, `security`, `link` or `pdu`.
    pub layer: &'static str,
    pub number: u64,
    pub cause: &'static str,
    pub count: u64,
}

/// A transaction that is open.
#[derive(Drop)]
pub struct Open {
    /// Its two numbers, as in `1:7`.
    pub id: String,
    pub way: Way,
    /// The word for how far it has come.
    pub phase: &'static str,
    /// The names of its file, as a report prints them, if they are known.
    pub source: Option<String>,
    pub destination: Option<String>,
    /// Octets of the file, and up to which of them it was sent or received.
    pub size: Option<u64>,
    pub octets: Option<u64>,
    pub is_suspended: bool,
    /// What it waits for; empty if it waits for its turn alone.
    pub waits_for: &'static str,
    /// In how many units of the clock the peer gives it up, if it is suspended.
    pub deadline: Option<u64>,
    /// When it began, in milliseconds since 1970, if that is known.
    pub began: Option<u64>,
}

/// What of a file is held, and what of it is missing, while it is being received.
#[derive(Drop)]
pub struct Parts {
    pub held: RangeSummary,
    /// What isn't held below the size that the EOF said; below the end of what is held if no EOF
    /// was received yet.
    pub missing: RangeSummary,
    /// Whether Metadata weren't received yet.
    pub lacks_metadata: bool,
}

/// A timer of a transaction.
#[derive(Clone, Copy)]
pub struct TimerShown {
    /// What it waits for, as the command `list` names it.
    pub timer: &'static str,
    /// In how many units of the clock it expires; `None` if it isn't armed.
    pub left: Option<u64>,
    /// How often its PDU was sent since its count began, and how often it may be sent again before
    /// that is a fault; `None` if nothing is sent when it expires.
    pub sent: Option<u64>,
    pub limit: Option<u64>,
}

/// What is shown of one transaction beside its line in the lists.
#[derive(Drop)]
pub struct Details {
    pub id: TransactionId,
    /// `None` unless its file is being received.
    pub parts: Option<Parts>,
    /// None if it is over.
    pub timers: Vec<TimerShown>,
}

/// What a console can be asked for, borrowed while it answers.
#[derive(Clone, Copy)]
pub struct ConsoleView<'a> {
    pub status: &'a Status,
    pub open: &'a [Open],
    /// The names of files that may be sent, in order, if they are asked for.
    pub files: &'a [String],
    /// The details of the transaction that is asked for, if there is one.
    pub details: Option<&'a Details>,
    pub ledger: &'a Ledger,
    pub log: &'a LogLines,
    pub samples: &'a Samples,
    /// The token, if the page may know it.
    pub token: Option<&'a str>,
}
