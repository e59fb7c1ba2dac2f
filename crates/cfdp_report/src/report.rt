//! The lines that reports of all commands share.
ghost use Rattle.std.specs.Io.KnownBytes.{Appends};
ghost use Rattle.std.specs.List.{flat_map};
ghost use Rattle.std.specs.Prelude.{◌≡◌, Some, OnOk, count_by};
ghost use Rattle.cfdp_report.specs.Report.Lines.{answer_line, indication_line, indication_text};
ghost use Rattle.cfdp_report.specs.Report.Lines.{is_own_completion, told_text};

pub mod answer;
pub mod name;
pub mod wording;

use crate::report::answer::Answered;
use crate::report::name::Name;
use crate::report::wording::{Id, delivery_word, status_word};
use cfdp_directives::{Delivery, FileStatus, Indication};
use std::io::Write;
use std::{fmt, io};

/// Writes a line for each command that has an answer.
///
/// # Errors
///
/// The error of the writer, if it fails.
pub fn write_answers<W: Write>(out: &mut W, answered: &[Answered]) -> io::Result<()>
    ensures { OnOk result (Appends (W.contents out.old) (W.contents out.new)
        (flat_map answer_line answered.now)) }
{
    for done in answered {
        write_answer(out, *done)?;
    }
    Ok(())
}

/// Writes the line of a command, if it has an answer.
///
/// # Errors
///
/// The error of the writer, if it fails.
pub fn write_answer<W: Write>(out: &mut W, done: Answered) -> io::Result<()>
    ensures { OnOk result (Appends (W.contents out.old) (W.contents out.new) (answer_line done)) }
{
    match done.answer {
        Some(answer) => writeln!(out, "line {} {answer}", done.line),
        None => Ok(()),
    }
}

/// Writes a line for each of these indications of a station.
///
/// # Errors
///
/// The error of the writer, if it fails.
pub fn write_indications<W: Write>(out: &mut W, station: u64, all: &[Indication]) -> io::Result<()>
    ensures { OnOk result (Appends (W.contents out.old) (W.contents out.new)
        (flat_map (indication_line station) all.now)) }
{
    for indication in all {
        writeln!(
            out,
            "{}",
            Told {
                station,
                indication
            }
        )?;
    }
    Ok(())
}

/// What a station indicated to its user.
#[derive(Clone, Copy)]
struct Told<'a> {
    station: u64,
    indication: &'a Indication,
}

impl fmt::Display for Told<'_> {
    ghost output = { λ told. Some (indication_text told.station told.indication.now) };

    fn fmt<W: fmt::Write>(&self, f: &mut fmt::Formatter<W>) -> fmt::Result {
        write!(f, "{} {}", self.station, ToldWords(self.indication))
    }
}

/// The same without the station.
#[derive(Clone, Copy)]
pub struct ToldWords<'a>(pub &'a Indication);

impl fmt::Display for ToldWords<'_> {
    ghost output = { λ told. Some (told_text told.0.now) };

    fn fmt<W: fmt::Write>(&self, f: &mut fmt::Formatter<W>) -> fmt::Result {
        match self.0 {
            Indication::Transaction(id) => write!(f, "transaction {}", Id(*id)),
            Indication::EofSent(id) => write!(f, "eof-sent {}", Id(*id)),
            Indication::MetadataRecv {
                id,
                source,
                destination,
                size,
            } => {
                let (from, to) = (Name(source.as_slice()), Name(destination.as_slice()));
                write!(f, "metadata {} {from} {to} {size}", Id(*id))
            }
            Indication::EofRecv(id) => write!(f, "eof-recv {}", Id(*id)),
            Indication::Finished {
                id,
                condition,
                delivery,
                status,
            } => {
                let (code, delivery, status) = (
                    condition.code(),
                    delivery_word(*delivery),
                    status_word(*status),
                );
                write!(f, "finished {} {code} {delivery} {status}", Id(*id))
            }
            Indication::Suspended(id, condition) => {
                write!(f, "suspended {} {}", Id(*id), condition.code())
            }
            Indication::Resumed(id) => write!(f, "resumed {}", Id(*id)),
            Indication::Fault(id, condition) => write!(f, "fault {} {}", Id(*id), condition.code()),
            Indication::Abandoned(id, condition) => {
                write!(f, "abandoned {} {}", Id(*id), condition.code())
            }
            Indication::Progress(id, octets) => write!(f, "progress {} {octets}", Id(*id)),
        }
    }
}

/// Returns for how many of its own transactions a station indicated that the file was delivered.
pub fn own_completions(station: u64, told: &[Indication]) -> usize
    ensures { result ≡ count_by (is_own_completion station) told.now }
{
    told.iter()
        .filter(|indication| completes_own(station, indication))
        .count()
}

/// Returns `true` if a station indicates by this that a transaction of its own is over with no
/// error, with the file complete and retained.
fn completes_own(station: u64, told: &Indication) -> bool
    ensures { result ≡ is_own_completion station told.now }
{
    match told {
        Indication::Finished {
            id,
            condition,
            delivery: Delivery::Complete,
            status: FileStatus::Retained,
        } => condition.code() == 0 && id.source == station,
        _ => false,
    }
}
