//! A line of a log for machines: an object of JSON (RFC 8259).
//!
//! Texts in it are ASCII. A name of a file stands there as a report prints it, with `%` and two
//! upper-case hexadecimal digits for `%` and for each octet that is no visible ASCII character, so
//! any octets come back from it; of the others, those that mean something in JSON or in markup are
//! escaped.
ghost use Rattle.std.specs.Io.KnownBytes.{Appends};
ghost use Rattle.std.specs.Prelude.{◌∷◌, ◌++◌, [], OnOk, codes};

use crate::station_log::style::Log;
use cfdp_directives::{Condition, Indication};
use cfdp_exchange::Note;
use cfdp_header::TransactionId;
use cfdp_report::{Name, condition_name, condition_words, delivery_word, status_word};
use cfdp_service::PutNames;
use cfdp_station::{PutError, RequestError};
use std::io::Write;
use std::{fmt, io, slice};

/// The name of a file, as a text of JSON with its quotes.
#[derive(Clone, Copy)]
pub struct JsonName<'a>(pub &'a [u8]);

impl fmt::Display for JsonName<'_> {
    fn fmt<W: fmt::Write>(&self, f: &mut fmt::Formatter<W>) -> fmt::Result {
        write!(f, "\"")?;
        for octet in self.0 {
            write!(f, "{}", JsonOctet(*octet))?;
        }
        write!(f, "\"")
    }
}

/// An octet of a name.
#[derive(Clone, Copy)]
struct JsonOctet(u8);

impl fmt::Display for JsonOctet {
    fn fmt<W: fmt::Write>(&self, f: &mut fmt::Formatter<W>) -> fmt::Result {
        match self.0 {
            b'"' | b'\\' | b'<' | b'>' | b'&' | b'\'' => {
                let code = self.0;
                write!(f, "\\u{code:04X}")
            }
            octet => write!(f, "{}", Name(slice::from_ref(&octet))),
        }
    }
}

/// A text as the log for people prints it: each octet as in a name, and spaces as they are.
#[derive(Clone, Copy)]
pub struct PlainText<'a>(pub &'a [u8]);

impl fmt::Display for PlainText<'_> {
    fn fmt<W: fmt::Write>(&self, f: &mut fmt::Formatter<W>) -> fmt::Result {
        for octet in self.0 {
            match octet {
                b' ' => write!(f, " ")?,
                octet => write!(f, "{}", Name(slice::from_ref(octet)))?,
            }
        }
        Ok(())
    }
}

/// A text as a string of JSON, with its quotes.
#[derive(Clone, Copy)]
pub struct JsonText<'a>(pub &'a [u8]);

impl fmt::Display for JsonText<'_> {
    fn fmt<W: fmt::Write>(&self, f: &mut fmt::Formatter<W>) -> fmt::Result {
        write!(f, "\"")?;
        for octet in self.0 {
            match octet {
                b' ' => write!(f, " ")?,
                octet => write!(f, "{}", JsonOctet(*octet))?,
            }
        }
        write!(f, "\"")
    }
}

/// Writes the object of what a station indicates to its user, with the names of the transaction's
/// file
/// if they are known.
///
/// # Errors
///
/// That of the writer.
pub fn write_indication_object<V: Write>(
    out: &mut V,
    log: Log<'_>,
    indication: &Indication,
    names: Option<&PutNames>,
) -> io::Result<()> {
    match indication {
        Indication::Transaction(id) => write_event(out, log, "transaction", *id)?,
        Indication::EofSent(id) => write_event(out, log, "eof-sent", *id)?,
        Indication::MetadataRecv { id, size, .. } => {
            write_event(out, log, "metadata", *id)?;
            write!(out, ",\"size\":{size}")?;
        }
        Indication::EofRecv(id) => write_event(out, log, "eof-recv", *id)?,
        Indication::Finished {
            id,
            condition,
            delivery,
            status,
        } => {
            write_fault(out, log, "finished", *id, *condition)?;
            let (delivery, status) = (delivery_word(*delivery), status_word(*status));
            write!(out, ",\"delivery\":\"{delivery}\",\"status\":\"{status}\"")?;
        }
        Indication::Suspended(id, why) => write_fault(out, log, "suspended", *id, *why)?,
        Indication::Resumed(id) => write_event(out, log, "resumed", *id)?,
        Indication::Fault(id, why) => write_fault(out, log, "fault", *id, *why)?,
        Indication::Abandoned(id, why) => write_fault(out, log, "abandoned", *id, *why)?,
        Indication::Progress(id, octets) => {
            write_event(out, log, "progress", *id)?;
            write!(out, ",\"octets\":{octets}")?;
        }
    }
    end_with_names(out, indication, names)
}

/// Ends the object of an indication with the names of the file: those that it has itself, or
/// otherwise those that are known.
fn end_with_names<V: Write>(
    out: &mut V,
    indication: &Indication,
    names: Option<&PutNames>,
) -> io::Result<()> {
    if let Indication::MetadataRecv {
        source,
        destination,
        ..
    } = indication
    {
        write_names(out, source.as_slice(), destination.as_slice())?;
    } else if let Some(names) = names {
        write_names(out, names.source.as_slice(), names.destination.as_slice())?;
    }
    end_object(out)
}

/// Writes the object of a put that is refused, by how many puts were made with it.
///
/// # Errors
///
/// That of the writer.
pub fn write_put_object<V: Write>(
    out: &mut V,
    log: Log<'_>,
    line: usize,
    names: &PutNames,
    error: PutError,
) -> io::Result<()> {
    begin_object(out, log, "put")?;
    let name = error.name();
    write!(
        out,
        ",\"line\":{line},\"answer\":\"{name}\",\"meaning\":\"{error}\""
    )?;
    write_names(out, names.source.as_slice(), names.destination.as_slice())?;
    end_object(out)
}

/// Writes the object of a change of a transaction that is refused.
///
/// # Errors
///
/// That of the writer.
pub fn write_change_object<V: Write>(
    out: &mut V,
    log: Log<'_>,
    error: RequestError,
) -> io::Result<()> {
    begin_object(out, log, "change")?;
    let name = error.name();
    write!(out, ",\"answer\":\"{name}\",\"meaning\":\"{error}\"")?;
    end_object(out)
}

/// Writes the object of what became of a file that lay in a spool, and why, if that is known.
///
/// # Errors
///
/// That of the writer.
pub fn write_file_object<V: Write, D: fmt::Display + Drop>(
    out: &mut V,
    log: Log<'_>,
    name: &[u8],
    outcome: &str,
    why: Option<D>,
) -> io::Result<()> {
    begin_object(out, log, "file")?;
    write!(
        out,
        ",\"name\":{},\"outcome\":\"{outcome}\"",
        JsonName(name)
    )?;
    if let Some(why) = why {
        write!(out, ",\"meaning\":\"{why}\"")?;
    }
    end_object(out)
}

/// Writes the object of a note for the operator, with the names of its
/// transaction's file if they are known.
///
/// # Errors
///
/// That of the writer.
pub fn write_note_object<V: Write>(
    out: &mut V,
    log: Log<'_>,
    note: &Note,
    names: Option<&PutNames>,
) -> io::Result<()> {
    match note.id {
        Some(id) => write_event(out, log, note.kind.word(), id)?,
        None => begin_object(out, log, note.kind.word())?,
    }
    let (topic, text) = (note.topic.name(), JsonText(note.text.as_bytes()));
    write!(out, ",\"topic\":\"{topic}\",\"text\":{text}")?;
    if let Some(names) = names {
        write_names(out, names.source.as_slice(), names.destination.as_slice())?;
    }
    end_object(out)
}

/// Writes the last object: how many of how many files were sent.
///
/// # Errors
///
/// That of the writer.
pub fn write_count_object<V: Write>(
    out: &mut V,
    log: Log<'_>,
    complete: usize,
    asked: usize,
) -> io::Result<()> {
    begin_object(out, log, "complete")?;
    write!(out, ",\"complete\":{complete},\"asked\":{asked}")?;
    end_object(out)
}

/// Begins an object: the time, if it must have one, the station, and what happened.
///
/// # Errors
///
/// That of the writer.
pub fn begin_object<V: Write>(out: &mut V, log: Log<'_>, event: &str) -> io::Result<()> {
    write!(out, "{{")?;
    if let Some(now) = log.time() {
        write!(out, "\"time\":\"{now:.3}\",")?;
    }
    write!(out, "\"station\":{},\"event\":\"{event}\"", log.own)
}

/// Ends an object, and its line.
///
/// # Errors
///
/// That of the writer.
pub fn end_object<V: Write>(out: &mut V) -> io::Result<()>
    ensures { OnOk result (Appends (V.contents out.old) (V.contents out.new)
        (codes "}" ++ 10 ∷ [])) }
{
    writeln!(out, "}}")
}

/// Begins the object of an event of a transaction.
fn write_event<V: Write>(
    out: &mut V,
    log: Log<'_>,
    event: &str,
    id: TransactionId,
) -> io::Result<()> {
    begin_object(out, log, event)?;
    write!(out, ",\"transaction\":\"{}:{}\"", id.source, id.number)
}

/// Begins the object of an event of a transaction that has a condition.
fn write_fault<V: Write>(
    out: &mut V,
    log: Log<'_>,
    event: &str,
    id: TransactionId,
    condition: Condition,
) -> io::Result<()> {
    write_event(out, log, event, id)?;
    let code = condition.code();
    let (name, words) = (condition_name(code), condition_words(code));
    write!(
        out,
        ",\"condition\":{code},\"condition_name\":\"{name}\",\"meaning\":\"{words}\""
    )
}

/// Writes the names of a file into an object.
fn write_names<V: Write>(out: &mut V, source: &[u8], destination: &[u8]) -> io::Result<()> {
    let (source, destination) = (JsonName(source), JsonName(destination));
    write!(out, ",\"source\":{source},\"destination\":{destination}")
}
