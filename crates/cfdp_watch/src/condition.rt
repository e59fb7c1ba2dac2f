//! Conditions in words (CCSDS 727.0-B-5, table 5-5).
use cfdp_directives::{Condition, Indication};
use cfdp_report::condition_words;
use station_pair::Side;
use std::io;
use std::io::Write;

/// The code of a cancel that a user asked for.
pub const CANCELLED: u8 = 15;

/// Which conditions stations indicated to their users.
#[derive(Clone, Copy)]
pub struct Conditions {
    are_told: [bool; 16],
}

/// The stations whose users cancelled transactions.
#[derive(Clone, Copy)]
pub struct Cancels {
    pub one: bool,
    pub two: bool,
}

impl Conditions {
    /// Makes a set with none so far.
    pub fn new() -> Conditions {
        Conditions {
            are_told: [false; 16],
        }
    }

    /// Adds the one that an indication has, if it has one.
    pub fn note(&mut self, indication: &Indication) {
        if let Some(condition) = told_condition(indication) {
            self.are_told[usize::from(condition.code())] = true;
        }
    }

    /// Writes a line for each of them except 0, in the order of their codes: what it says, and of a
    /// cancel also whose it was.
    ///
    /// # Errors
    ///
    /// The error of the writer, if it fails.
    pub fn write<W: Write>(&self, cancels: Cancels, out: &mut W) -> io::Result<()> {
        for code in 1..16u8 {
            if self.are_told[usize::from(code)] {
                write!(out, "condition {code}: {}", condition_words(code))?;
                if code == CANCELLED {
                    write_cancels(cancels, out)?;
                }
                writeln!(out)?;
            }
        }
        Ok(())
    }
}

/// Writes the stations whose users cancelled transactions, if it is known.
fn write_cancels<W: Write>(cancels: Cancels, out: &mut W) -> io::Result<()> {
    let mut mark = ": ";
    for (side, has_cancelled) in [(Side::One, cancels.one), (Side::Two, cancels.two)] {
        if has_cancelled {
            write!(out, "{mark}station {}", side.entity())?;
            mark = " and ";
        }
    }
    Ok(())
}

/// Returns the condition that an indication has, if it has one.
fn told_condition(indication: &Indication) -> Option<Condition> {
    match indication {
        Indication::Finished { condition, .. } => Some(*condition),
        Indication::Suspended(_, condition) => Some(*condition),
        Indication::Fault(_, condition) => Some(*condition),
        Indication::Abandoned(_, condition) => Some(*condition),
        Indication::Transaction(_)
        | Indication::EofSent(_)
        | Indication::MetadataRecv { .. }
        | Indication::EofRecv(_)
        | Indication::Resumed(_)
        | Indication::Progress(..) => None,
    }
}
