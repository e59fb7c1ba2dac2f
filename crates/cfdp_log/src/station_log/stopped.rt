//! Why a station sends nothing, or no further file, in the words of its operator.
use cfdp_exchange::{Exchange, Stop};
use cfdp_report::cause_text;
use std::fmt;

/// What a station doesn't do since no numbers can be reserved in its state file.
#[derive(Clone, Copy)]
pub enum Stopped {
    /// It sends nothing: the counts of its frames can't be reserved.
    Frames(Stop),
    /// It accepts nothing: the sequence numbers of the peer's frames can't be reserved.
    Accepting(Stop),
    /// It makes no put: transaction numbers can't be reserved.
    Puts(Stop),
}

impl Stopped {
    /// Returns what the station doesn't do now; `None` if it does all.
    pub fn at(exchange: &Exchange) -> Option<Stopped> {
        if let Some(stop) = exchange.no_counts.get() {
            Some(Stopped::Frames(stop))
        } else if let Some(stop) = exchange.no_accepting.get() {
            Some(Stopped::Accepting(stop))
        } else {
            Some(Stopped::Puts(exchange.no_numbers.get()?))
        }
    }
}

impl fmt::Display for Stopped {
    /// One line, without its end, which has no character that JSON would escape.
    fn fmt<W: fmt::Write>(&self, f: &mut fmt::Formatter<W>) -> fmt::Result {
        match self {
            Stopped::Frames(stop) => write!(f, "nothing is sent: {}", StopCause(*stop)),
            Stopped::Accepting(stop) => write!(f, "nothing is accepted: {}", StopCause(*stop)),
            Stopped::Puts(stop) => write!(f, "no further file is sent: {}", StopCause(*stop)),
        }
    }
}

/// Why numbers can't be reserved.
#[derive(Clone, Copy)]
struct StopCause(Stop);

impl fmt::Display for StopCause {
    fn fmt<W: fmt::Write>(&self, f: &mut fmt::Formatter<W>) -> fmt::Result {
        match self.0 {
            Stop::Spent => f.write_str("all numbers are used"),
            Stop::Unwritable(kind) => {
                write!(f, "cannot write the state file: {}", cause_text(kind))
            }
        }
    }
}
