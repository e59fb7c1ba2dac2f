//! How the log of a station reports each thing, by its style. The writer isn't flushed.
ghost use Rattle.std.specs.Io.KnownBytes.{Appends};
ghost use Rattle.std.specs.Prelude.{◌≡◌, OnOk, Some};
ghost use Rattle.cfdp_log.specs.Log.Lines as lines;
ghost use Rattle.cfdp_log.specs.Log.Lines.{Answers, Completes, IsDressed, Notes, Tells};
ghost use Rattle.cfdp_log.specs.Log.Lines.{WritesAs, answer_body};
ghost use Rattle.cfdp_report.specs.Report.Lines.{answer_text, count_line, indication_line};
ghost use Rattle.cfdp_report.specs.Report.Lines.{indication_text};

use crate::station_log::json::{
    PlainText, begin_object, end_object, write_change_object, write_count_object,
    write_file_object, write_indication_object, write_note_object, write_put_object,
};
use crate::station_log::line::{add_names, add_time, write_line};
use crate::station_log::overview::{Figures, Form, write_counter_members, write_counters};
use crate::station_log::style::{Log, Style};
use cfdp_directives::{Condition, Indication};
use cfdp_exchange::Note;
use cfdp_report::{Answer, Answered, Name, condition_words, write_answer, write_indications};
use cfdp_service::{PutNames, SpoolOutcome};
use cfdp_station::{PutError, RequestError, Station};
use cfdp_store::{Inbox, Outbox};
use station_pair::Refusal;
use std::io::Write;
use std::{fmt, io, slice};

/// Why a file wasn't sent.
#[derive(Clone, Copy)]
pub enum Why {
    /// Its put was refused.
    Refused(PutError),
    /// Its transaction ended so.
    Ended(Condition),
}

impl fmt::Display for Why {
    fn fmt<W: fmt::Write>(&self, f: &mut fmt::Formatter<W>) -> fmt::Result {
        match self {
            Why::Refused(error) => write!(f, "{error}"),
            Why::Ended(condition) if condition.code() == 0 => {
                f.write_str("no error, but the peer did not report that it keeps the file")
            }
            Why::Ended(condition) => f.write_str(condition_words(condition.code())),
        }
    }
}

/// What a report answers for a put that is refused so.
fn refusal_answer(error: PutError) -> Answer
    ensures { result ≡ lines.refusal_answer error }
{
    match error {
        PutError::NoMemory => Answer::NO_MEMORY,
        PutError::Name
        | PutError::TableFull
        | PutError::NumbersSpent
        | PutError::SourceFault
        | PutError::NoSuchFile
        | PutError::TooLarge => Answer::Refused(Refusal::Put(error)),
    }
}

/// Reports a put that is refused, the made-th of all.
///
/// # Errors
///
/// That of the writer.
pub fn tell_refusal<V: Write>(
    out: &mut V,
    line: &mut Vec<u8>,
    log: Log<'_>,
    made: usize,
    names: &PutNames,
    error: PutError,
) -> io::Result<()>
    ensures { OnOk result (WritesAs log.entry.own log.entry.style (Answers made (Some
        (lines.refusal_answer error))) (V.contents out.old)
        (V.contents out.new)) }
{
    let answer = refusal_answer(error);
    match log.style {
        Style::Plain => write_refusal(out, made, answer),
        Style::Text => {
            make_answer(line, log, made, answer, names)?;
            write_line(out, line.as_slice())
        }
        Style::Json { .. } => write_put_object(out, log, made, names, error),
    }
}

/// Writes the line of a put that is refused as a report has it.
fn write_refusal<W: Write>(out: &mut W, made: usize, answer: Answer) -> io::Result<()>
    ensures { OnOk result (Appends (W.contents out.old) (W.contents out.new)
        (answer_text made (Some answer))) }
{
    write_answer(
        out,
        Answered {
            line: made,
            answer: Some(answer),
        },
    )
}

/// Makes the line of a put that is refused.
fn make_answer(
    line: &mut Vec<u8>,
    log: Log<'_>,
    made: usize,
    answer: Answer,
    names: &PutNames,
) -> io::Result<()>
    ensures { OnOk result (IsDressed (answer_body made answer) line.new.items) }
{
    line.clear();
    add_time(line, log)?;
    write_refusal(line, made, answer)?;
    add_names(line, Some(names), None)
}

/// Reports what the station indicates, with the transaction's names of the file if they are known.
///
/// # Errors
///
/// That of the writer.
pub fn tell_indication<V: Write>(
    out: &mut V,
    line: &mut Vec<u8>,
    log: Log<'_>,
    indication: &Indication,
    names: Option<&PutNames>,
) -> io::Result<()>
    ensures { OnOk result (WritesAs log.entry.own log.entry.style (Tells indication.now)
        (V.contents out.old) (V.contents out.new)) }
{
    match log.style {
        Style::Plain => write_indication(out, log.own, indication),
        Style::Text => {
            make_indication(line, log, indication, names)?;
            write_line(out, line.as_slice())
        }
        Style::Json { .. } => write_indication_object(out, log, indication, names),
    }
}

/// Writes the line of what the station indicates as a report has it.
fn write_indication<W: Write>(out: &mut W, own: u64, indication: &Indication) -> io::Result<()>
    ensures { OnOk result (Appends (W.contents out.old) (W.contents out.new)
        (indication_line own indication.now)) }
{
    write_indications(out, own, slice::from_ref(indication))
}

/// Makes the line of what the station indicates. That of Metadata has the names by itself.
fn make_indication(
    line: &mut Vec<u8>,
    log: Log<'_>,
    indication: &Indication,
    names: Option<&PutNames>,
) -> io::Result<()>
    ensures { OnOk result (IsDressed (indication_text log.entry.own indication.now)
        line.new.items) }
{
    line.clear();
    add_time(line, log)?;
    write_indication(line, log.own, indication)?;
    add_names(line, names_behind(indication, names), fault_of(indication))
}

/// The names that are put after the line of an indication.
fn names_behind<'a>(indication: &Indication, names: Option<&'a PutNames>) -> Option<&'a PutNames> {
    match indication {
        Indication::MetadataRecv { .. } => None,
        _ => names,
    }
}

/// Returns the condition by which an indication reports a fault, if it reports one.
fn fault_of(indication: &Indication) -> Option<Condition> {
    match indication {
        Indication::Finished { condition, .. } if condition.code() != 0 => Some(*condition),
        Indication::Suspended(_, condition)
        | Indication::Fault(_, condition)
        | Indication::Abandoned(_, condition) => Some(*condition),
        _ => None,
    }
}

/// Reports that the change of a transaction was refused.
///
/// # Errors
///
/// That of the writer.
pub fn tell_change<V: Write>(
    out: &mut V,
    line: &mut Vec<u8>,
    log: Log<'_>,
    error: RequestError,
) -> io::Result<()>
    ensures { OnOk result (WritesAs log.entry.own log.entry.style Notes (V.contents out.old)
        (V.contents out.new)) }
{
    match log.style {
        Style::Plain => Ok(()),
        Style::Text => {
            line.clear();
            add_time(line, log)?;
            writeln!(line, "change {}: {error}", error.name())?;
            write_line(out, line.as_slice())
        }
        Style::Json { .. } => write_change_object(out, log, error),
    }
}

/// Reports that the station changed its keys.
///
/// # Errors
///
/// Those of the writer.
pub fn tell_rekey<V: Write>(out: &mut V, line: &mut Vec<u8>, log: Log<'_>) -> io::Result<()>
    ensures { OnOk result (WritesAs log.entry.own log.entry.style Notes (V.contents out.old)
        (V.contents out.new)) }
{
    match log.style {
        Style::Plain => Ok(()),
        Style::Text => {
            line.clear();
            add_time(line, log)?;
            writeln!(line, "rekey")?;
            write_line(out, line.as_slice())
        }
        Style::Json { .. } => {
            begin_object(out, log, "rekey")?;
            end_object(out)
        }
    }
}

/// Reports a note for the operator, with the names of its transaction's file if
/// they are known.
///
/// # Errors
///
/// Those of the writer.
pub fn tell_note<V: Write>(
    out: &mut V,
    line: &mut Vec<u8>,
    log: Log<'_>,
    note: &Note,
    names: Option<&PutNames>,
) -> io::Result<()>
    ensures { OnOk result (WritesAs log.entry.own log.entry.style Notes (V.contents out.old)
        (V.contents out.new)) }
{
    match log.style {
        Style::Plain => Ok(()),
        Style::Text => {
            make_note(line, log, note, names)?;
            write_line(out, line.as_slice())
        }
        Style::Json { .. } => write_note_object(out, log, note, names),
    }
}

/// Makes the line of a note.
fn make_note(
    line: &mut Vec<u8>,
    log: Log<'_>,
    note: &Note,
    names: Option<&PutNames>,
) -> io::Result<()> {
    line.clear();
    add_time(line, log)?;
    let (word, text) = (note.kind.word(), note.text.as_str());
    writeln!(line, "{word} {}", PlainText(text.as_bytes()))?;
    add_names(line, names, None)
}

/// Reports what became of a file that lay in a spool, and why, if that is known.
///
/// # Errors
///
/// That of the writer.
pub fn tell_file<V: Write>(
    out: &mut V,
    line: &mut Vec<u8>,
    log: Log<'_>,
    name: &[u8],
    outcome: SpoolOutcome,
    why: Option<Why>,
) -> io::Result<()>
    ensures { OnOk result (WritesAs log.entry.own log.entry.style Notes (V.contents out.old)
        (V.contents out.new)) }
{
    let word = outcome_word(outcome);
    match log.style {
        Style::Plain => Ok(()),
        Style::Text => {
            make_file(line, log, name, word, why)?;
            write_line(out, line.as_slice())
        }
        Style::Json { .. } => write_file_object(out, log, name, word, why),
    }
}

/// The word for what became of a file.
fn outcome_word(outcome: SpoolOutcome) -> &'static str {
    match outcome {
        SpoolOutcome::Sent => "sent",
        SpoolOutcome::Failed => "failed",
        SpoolOutcome::PutBack => "again",
    }
}

/// Makes the line of what became of a file.
fn make_file(
    line: &mut Vec<u8>,
    log: Log<'_>,
    name: &[u8],
    word: &str,
    why: Option<Why>,
) -> io::Result<()> {
    line.clear();
    add_time(line, log)?;
    match why {
        Some(why) => writeln!(line, "file {} {word}: {why}", Name(name)),
        None => writeln!(line, "file {} {word}", Name(name)),
    }
}

/// Reports the counters of a station at its end, and how many of the files that it had to send were
/// sent.
///
/// # Errors
///
/// That of the writer.
pub fn tell_end<O: Outbox, I: Inbox, V: Write>(
    out: &mut V,
    line: &mut Vec<u8>,
    log: Log<'_>,
    figures: Figures<'_>,
    station: &Station<O, I>,
) -> io::Result<()>
    ensures { OnOk result (WritesAs log.entry.own log.entry.style
        (Completes figures.entry.totals.now.complete figures.entry.totals.now.asked) (V.contents out.old)
        (V.contents out.new)) }
{
    let (complete, asked) = (figures.totals.complete, figures.totals.asked);
    match log.style {
        Style::Plain => write_count(out, complete, asked),
        Style::Text => {
            line.clear();
            add_counters(line, log, figures, station)?;
            add_time(line, log)?;
            write_count(line, complete, asked)?;
            write_line(out, line.as_slice())
        }
        Style::Json { .. } => {
            write_counters_object(out, log, figures, station)?;
            write_count_object(out, log, complete, asked)
        }
    }
}

/// Writes the last line of a report: how many of how many puts were completed.
fn write_count<W: Write>(out: &mut W, complete: usize, asked: usize) -> io::Result<()>
    ensures { OnOk result (Appends (W.contents out.old) (W.contents out.new)
        (count_line complete asked)) }
{
    writeln!(out, "complete {complete} of {asked}")
}

/// Adds a line for each counter. If there is no memory for them, less is reported.
fn add_counters<O: Outbox, I: Inbox>(
    line: &mut Vec<u8>,
    log: Log<'_>,
    figures: Figures<'_>,
    station: &Station<O, I>,
) -> io::Result<()> {
    let mut text = String::new(log.rt.alloc());
    let _ = write_counters(&mut text, Form::Text, figures, station);
    for row in text.as_str().lines() {
        add_time(line, log)?;
        writeln!(line, "{row}")?;
    }
    Ok(())
}

/// Writes the object of the counters, if there is memory for it.
fn write_counters_object<O: Outbox, I: Inbox, V: Write>(
    out: &mut V,
    log: Log<'_>,
    figures: Figures<'_>,
    station: &Station<O, I>,
) -> io::Result<()> {
    let mut text = String::new(log.rt.alloc());
    if write_counter_members(&mut text, figures, station).is_err() {
        return Ok(());
    }
    begin_object(out, log, "counters")?;
    write!(out, ",{text}")?;
    end_object(out)
}
