ghost use Rattle.std.specs.Prelude.{◌≡◌, Some};
ghost use Rattle.cfdp_report.specs.Report.Answers.{answer_after, answer_name};

use station_pair::{RecoverError, Refusal, SettleError};
use std::fmt;

/// Why a command didn't do its work, or not all of it. The report says it.
#[derive(Clone, Copy)]
pub enum Answer {
    /// There was nothing to do, or nothing more after so many events of the command. The report
    /// says only that.
    Nothing { after: u64 },
    /// It was refused.
    Refused(Refusal),
    /// It ended before all was done.
    Ended(RecoverError),
}

/// A command that was done, or tried, by its line.
#[derive(Clone, Copy)]
pub struct Answered {
    /// The number of its line, from 1 on.
    pub line: usize,
    /// What it answered, if it wasn't done, or not to its end.
    pub answer: Option<Answer>,
}

impl Answered {
    /// Returns `true` if memory or a store failed in it.
    pub fn is_device_fault(self) -> bool
        ensures { result ≡ Rattle.cfdp_report.specs.Report.Answers.is_device_fault self.answer }
    {
        match self.answer {
            Some(Answer::Ended(RecoverError::Settle(error))) => match error {
                SettleError::NoMemory | SettleError::StoreFailed => true,
                SettleError::TableFull => false,
            },
            _ => false,
        }
    }
}

impl Answer {
    /// There was no memory for an event.
    pub const NO_MEMORY: Answer = Answer::Ended(RecoverError::Settle(SettleError::NoMemory));

    /// Returns this answer of an event as the answer of a command, so many of whose events happened
    /// before: only Nothing keeps how many.
    pub fn told_after(self, before: u64) -> Answer
        ensures { result ≡ answer_after before self }
    {
        match self {
            Answer::Nothing { .. } => Answer::Nothing { after: before },
            Answer::Refused(_) | Answer::Ended(_) => self,
        }
    }
}

impl fmt::Display for Answer {
    ghost output = { λ answer. Some (answer_name answer) };

    fn fmt<W: fmt::Write>(&self, f: &mut fmt::Formatter<W>) -> fmt::Result {
        match *self {
            Answer::Nothing { .. } => f.write_str("Nothing"),
            Answer::Refused(refusal) => f.write_str(refusal_name(refusal)),
            Answer::Ended(error) => f.write_str(error.name()),
        }
    }
}

fn refusal_name(refusal: Refusal) -> &'static str
    ensures { result.now ≡ answer_name (Answer.Refused refusal) }
{
    match refusal {
        Refusal::Put(error) => error.name(),
        Refusal::Call(error) => error.name(),
        Refusal::LossRunTooLong => "LossRunTooLong",
        Refusal::NotDamaged => "NotDamaged",
    }
}
