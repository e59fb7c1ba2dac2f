//! What the commands of such a script answer.
ghost use Rattle.std.specs.Prelude.{◌≡◌, ◌≢◌, Some, false, true};
ghost use Rattle.cfdp_any_order_script.specs.Performing.{nothing};
ghost use Rattle.cfdp_any_order_script.specs.Answers.{answer_name, after_so_many};

use link_sim::RecoverError;
use std::fmt;

/// Why a command didn't do its work, or not all of it, as the report says.
#[derive(Clone, Copy)]
pub enum Answer {
    /// As in every script.
    Usual(cfdp_report::Answer),
    /// Fewer frames wait, or have arrived.
    NoSuchFrame,
    /// The frame is too far from the one of its lane that arrived last.
    TooFar,
    /// It isn't done after 1,000,000 events.
    TooLong,
    /// The station can't restart: it has no number left for a transaction.
    NumbersSpent,
    /// The station can't restart: it has no number left for a frame.
    FramesSpent,
    /// The station can't resume: one of its transactions wasn't restored.
    NotRestored,
}

/// A command that was done, or tried, by its line.
#[derive(Clone, Copy)]
pub struct Answered {
    /// The number of its line, from 1 on.
    pub line: usize,
    /// What it answered, if it wasn't done, or not to its end.
    pub answer: Option<Answer>,
}

impl Answered {
    /// Returns `true` if memory or a store failed in it.
    pub fn is_device_fault(self) -> bool
        ensures { result ≡ Rattle.cfdp_any_order_script.specs.Answers.is_device_fault self.answer }
    {
        match self.answer {
            Some(Answer::Usual(answer)) => cfdp_report::Answered {
                line: self.line,
                answer: Some(answer),
            }
            .is_device_fault(),
            _ => false,
        }
    }
}

impl Answer {
    /// There was nothing to do.
    pub const NOTHING: Answer = Answer::Usual(cfdp_report::Answer::Nothing { after: 0 });

    /// There was no memory for it.
    pub const NO_MEMORY: Answer = Answer::Usual(cfdp_report::Answer::NO_MEMORY);

    /// After all rounds a timer is left.
    pub const STILL_ARMED: Answer = Answer::Usual(cfdp_report::Answer::Ended(
        RecoverError::StillArmed,
    ));

    /// Returns `true` if it says that there was nothing to do.
    pub fn is_nothing(self) -> bool
        ensures yes { result ≡ true → self ≡ nothing }
        ensures no { result ≡ false → self ≢ nothing }
    {
        match self {
            Answer::Usual(cfdp_report::Answer::Nothing { after }) => after == 0,
            _ => false,
        }
    }

    /// Returns this answer of an event, if `before` events of the command happened before: only
    /// Nothing says how many.
    pub fn told_after(self, before: u64) -> Answer
        ensures { result ≡ after_so_many before self }
    {
        match self {
            Answer::Usual(answer) => Answer::Usual(answer.told_after(before)),
            other => other,
        }
    }
}

impl fmt::Display for Answer {
    ghost output = { λ answer. Some (answer_name answer) };

    fn fmt<W: fmt::Write>(&self, f: &mut fmt::Formatter<W>) -> fmt::Result {
        match *self {
            Answer::Usual(answer) => write!(f, "{answer}"),
            Answer::NoSuchFrame => f.write_str("NoSuchFrame"),
            Answer::TooFar => f.write_str("TooFar"),
            Answer::TooLong => f.write_str("TooLong"),
            Answer::NumbersSpent => f.write_str("NumbersSpent"),
            Answer::FramesSpent => f.write_str("FramesSpent"),
            Answer::NotRestored => f.write_str("NotRestored"),
        }
    }
}
