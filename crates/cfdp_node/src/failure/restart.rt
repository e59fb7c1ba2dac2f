//! Why a station can't go on from its last run.
use cfdp_files::StateError;
use cfdp_report::cause_text;
use std::alloc::Global;
use std::borrow::CowStr;
use std::fmt;
use std::io::ErrorKind;
use thiserror::Error;

/// Why the state file or the journal of a station can't be used.
#[derive(Drop, Error)]
pub enum RestartError<'a> {
    /// The state file of this path lies in this inbox.
    #[error("{0}: lies in the inbox {1}, where the peer can replace it: choose another file with \
        --state")]
    StateInInbox(CowStr<'a, Global>, &'a str),
    /// No numbers can be reserved in the state file of this path.
    #[error("{0}: {1} (used transaction numbers are kept there; choose another file with --state)")]
    State(CowStr<'a, Global>, StateError),
    /// The journal of this path can't be used.
    #[error("{0}: {1}")]
    Journal(CowStr<'a, Global>, JournalFault<'a>),
}

/// Why a journal can't be used.
#[derive(Clone, Copy, Debug, Error)]
pub enum JournalFault<'a> {
    /// It would be the state file.
    #[error("the state file of this station: choose another file with --journal")]
    IsState,
    /// It lies in this spool.
    #[error("lies in the spool {0}, whose files are sent: choose another file with --journal")]
    InSpool(&'a str),
    /// It lies in this inbox.
    #[error("lies in the inbox {0}, where the peer can replace it: choose another file with \
        --journal")]
    InInbox(&'a str),
    /// It is the journal of another entity, or with another peer.
    #[error("the journal of entity {0} with peer {1}: choose another file with --journal")]
    OfOthers(u64, u64),
    /// Another process has it.
    #[error("in use by another station")]
    InUse,
    /// The system refuses it.
    #[error("{cause}", cause = cause_text(*.0))]
    System(ErrorKind),
}

impl RestartError<'_> {
    /// Returns `true` if it is a mistake of whoever asked, and stays one however often it is tried.
    pub fn is_mistake(&self) -> bool {
        match self {
            RestartError::StateInInbox(..) => true,
            RestartError::State(..)
            | RestartError::Journal(_, JournalFault::InUse | JournalFault::System(_)) => false,
            RestartError::Journal(..) => true,
        }
    }
}

impl fmt::Debug for RestartError<'_> {
    fn fmt<W: fmt::Write>(&self, f: &mut fmt::Formatter<W>) -> fmt::Result {
        write!(f, "{self}")
    }
}
