//! What a station shows of itself, as JSON (RFC 8259).
ghost use Rattle.std.specs.Prelude.{◌≡◌, IfOk};
ghost use Rattle.serde_json.specs.View.{view};
ghost use Rattle.cfdp_console.specs.Shown.{counters_data, dropped_data, failed_data, link_data};
ghost use Rattle.cfdp_console.specs.Shown.{note_data, phases_data, told_data};
ghost use Rattle.cfdp_console.specs.Shown.{number_or_null, open_data, text_or_null, way_text};

use crate::ledger::{Closed, Way};
use crate::log_lines::LogLine;
use crate::samples::Samples;
use crate::shown::{
    ConsoleView, Dropped, Failed, LinkStatus, NoteShown, Open, OpenPhases, ShownCounters, Told,
};
use cfdp_header::TransactionId;
use serde_json::{Map, Value, json};
use std::alloc::{AllocError, Global};

/// The most closed transactions, and the most lines of the log, that an answer has. After so many
/// octets of lines it has no more of them, so it is made within a millisecond. Who asks for all
/// goes on after the last one.
const MOST_CLOSED: usize = 50;

const MOST_LINES: usize = 200;

const ENOUGH_OCTETS: usize = 32 * 1024;

/// Returns a number, or null if it isn't known.
pub fn number(value: Option<u64>) -> Value
    ensures { view result ≡ number_or_null value }
{
    match value {
        Some(number) => Value::from(number),
        None => Value::Null,
    }
}

/// A text, or null if it isn't known.
fn text(alloc: Global, value: &Option<String>) -> Result<Value, AllocError>
    ensures { IfOk result (λ it. view it ≡ text_or_null value.now) }
{
    match value {
        Some(text) => Ok(Value::String(String::from_str(alloc, text.as_str())?)),
        None => Ok(Value::Null),
    }
}

/// Returns the word for which way a file goes.
pub fn way_word(way: Way) -> &'static str
    ensures { result.now ≡ way_text way }
{
    match way {
        Way::Sends => "sends",
        Way::Receives => "receives",
    }
}

/// Returns the object of an open transaction.
///
/// # Errors
///
/// `AllocError` if there is no memory for it.
pub fn open_value(alloc: Global, it: &Open) -> Result<Value, AllocError>
    ensures { IfOk result (λ value. view value ≡ open_data it.now) }
{
    let (source, destination) = (text(alloc, &it.source)?, text(alloc, &it.destination)?);
    json!(in alloc; {
        "began": number(it.began),
        "deadline": number(it.deadline),
        "destination": destination,
        "id": it.id.as_str(),
        "octets": number(it.octets),
        "phase": it.phase,
        "size": number(it.size),
        "source": source,
        "suspended": it.is_suspended,
        "waits_for": it.waits_for,
        "way": way_word(it.way),
    })
}

/// Returns the object of a link.
///
/// # Errors
///
/// `AllocError` if there is no memory for it.
pub fn link_value(alloc: Global, link: &LinkStatus) -> Result<Value, AllocError>
    ensures { IfOk result (λ it. view it ≡ link_data link.now) }
{
    let state = if link.is_frozen { "frozen" } else { "up" };
    json!(in alloc; {
        "authenticated": link.is_authenticated,
        "carrier": link.carrier,
        "control_field": number(link.control_field),
        "missing": link.frames.missing,
        "octets_received": link.octets_received,
        "octets_sent": link.octets_sent,
        "received": link.frames.received,
        "sent": link.frames.sent,
        "silent": number(link.silent),
        "state": state,
        "thrown_away": link.thrown_away,
        "to": link.to.as_str(),
    })
}

/// Returns the object of what a station counted.
///
/// # Errors
///
/// `AllocError` if there is no memory for it.
pub fn counters_value(alloc: Global, counters: &ShownCounters) -> Result<Value, AllocError>
    ensures { IfOk result (λ it. view it ≡ counters_data counters.now) }
{
    json!(in alloc; {
        "file_data_sent": counters.file_data_sent,
        "file_data_sent_again": counters.file_data_sent_again,
        "files_failed": counters.files_failed,
        "files_received": counters.files_received,
        "files_sent": counters.files_sent,
        "naks_sent": counters.naks_sent,
        "octets_received": counters.octets_received,
        "octets_sent": counters.octets_sent,
        "pdus_sent": counters.pdus_sent,
        "puts_made": counters.puts_made,
        "puts_refused": counters.puts_refused,
        "sends_failed": counters.sends_failed,
    })
}

/// Returns the object of how many transactions are open.
///
/// # Errors
///
/// `AllocError` if there is no memory for it.
pub fn phases_value(alloc: Global, phases: &OpenPhases) -> Result<Value, AllocError>
    ensures { IfOk result (λ it. view it ≡ phases_data phases.now) }
{
    json!(in alloc; {
        "cancelling": phases.cancelling,
        "finishing": phases.finishing,
        "receiving": phases.receiving,
        "sending": phases.sending,
    })
}

/// Returns the object of how many notes and errors there were.
///
/// # Errors
///
/// `AllocError` if there is no memory for it.
pub fn told_value(alloc: Global, told: &Told) -> Result<Value, AllocError>
    ensures { IfOk result (λ it. view it ≡ told_data told.now) }
{
    json!(in alloc; {"errors": told.errors, "notes": told.notes})
}

/// Returns the object of a condition by which transactions failed.
///
/// # Errors
///
/// `AllocError` if there is no memory for it.
pub fn failed_value(alloc: Global, failed: &Failed) -> Result<Value, AllocError>
    ensures { IfOk result (λ it. view it ≡ failed_data failed.now) }
{
    json!(in alloc; {
        "code": failed.code,
        "condition": failed.condition,
        "count": failed.count,
        "way": way_word(failed.way),
    })
}

/// Returns the object of the last note on a topic.
///
/// # Errors
///
/// `AllocError` if there is no memory for it.
pub fn note_value(alloc: Global, note: &NoteShown) -> Result<Value, AllocError>
    ensures { IfOk result (λ it. view it ≡ note_data note.now) }
{
    json!(in alloc; {
        "age": note.age,
        "count": note.count,
        "error": note.is_error,
        "holds": note.holds,
        "text": note.text.as_str(),
        "topic": note.topic,
    })
}

/// Returns the object of a cause by which something was dropped.
///
/// # Errors
///
/// `AllocError` if there is no memory for it.
pub fn dropped_value(alloc: Global, dropped: &Dropped) -> Result<Value, AllocError>
    ensures { IfOk result (λ it. view it ≡ dropped_data dropped.now) }
{
    json!(in alloc; {
        "cause": dropped.cause,
        "count": dropped.count,
        "layer": dropped.layer,
        "number": dropped.number,
    })
}

/// Returns the object of a transaction that is over.
///
/// # Errors
///
/// `AllocError` if there is no memory for it.
pub fn closed_value(alloc: Global, closed: &Closed) -> Result<Value, AllocError> {
    let known = &closed.known;
    let (source, destination) = match &known.names {
        Some(names) => (
            Some(names.source.as_str()),
            Some(names.destination.as_str()),
        ),
        None => (None, None),
    };
    let id = id_text(alloc, closed.id)?;
    let mut object = Value::Object(Map::new(alloc));
    insert_text(alloc, &mut object, "id", Some(id.as_str()))?;
    insert_text(alloc, &mut object, "source", source)?;
    insert_text(alloc, &mut object, "destination", destination)?;
    insert_text(alloc, &mut object, "way", Some(way_word(known.way)))?;
    let ending = closed.ending;
    insert_text(alloc, &mut object, "why", Some(ending.why))?;
    insert_text(alloc, &mut object, "condition", Some(ending.condition))?;
    let complete = Value::Bool(ending.is_complete);
    insert(alloc, &mut object, "complete", complete)?;
    for (name, value) in &[
        ("number", Some(closed.number)),
        ("size", known.size),
        ("began", known.began),
        ("time", Some(ending.time)),
    ] {
        insert(alloc, &mut object, name, number(*value))?;
    }
    Ok(object)
}

/// Writes the two numbers of a transaction as a text, as in `1:7`.
///
/// # Errors
///
/// `AllocError` if there is no memory for it.
pub fn id_text(alloc: Global, id: TransactionId) -> Result<String, AllocError> {
    format!(in alloc; "{}:{}", id.source, id.number)
}

/// A text, or null if it isn't known.
fn str_value(alloc: Global, value: Option<&str>) -> Result<Value, AllocError> {
    match value {
        Some(text) => Ok(Value::String(String::from_str(alloc, text)?)),
        None => Ok(Value::Null),
    }
}

/// Returns the object of `/status`.
///
/// # Errors
///
/// `AllocError` if there is no memory for it.
pub fn status_value(alloc: Global, shown: ConsoleView<'_>) -> Result<Value, AllocError> {
    let status = shown.status;
    let mut object = numbers_of(alloc, shown)?;
    insert(alloc, &mut object, "timeout", number(status.timeout))?;
    let link = link_value(alloc, &status.link)?;
    insert(alloc, &mut object, "link", link)?;
    let counters = counters_value(alloc, &status.counters)?;
    insert(alloc, &mut object, "counters", counters)?;
    let phases = phases_value(alloc, &status.phases)?;
    insert(alloc, &mut object, "phases", phases)?;
    let told = told_value(alloc, &status.told)?;
    insert(alloc, &mut object, "told", told)?;
    insert_text(alloc, &mut object, "version", Some(status.version))?;
    insert_lists(alloc, &mut object, shown)?;
    Ok(object)
}

/// Adds what failed, what was noted and what was dropped to the object of `/status`.
fn insert_lists(
    alloc: Global,
    object: &mut Value,
    shown: ConsoleView<'_>,
) -> Result<(), AllocError> {
    let status = shown.status;
    let failed = failed_values(alloc, status.failed.as_slice())?;
    insert(alloc, object, "failed", failed)?;
    let notes = note_values(alloc, status.notes.as_slice())?;
    insert(alloc, object, "notes", notes)?;
    let dropped = dropped_values(alloc, status.dropped.as_slice())?;
    insert(alloc, object, "dropped", dropped)
}

/// An object of the numbers that are always known of a station.
fn numbers_of(alloc: Global, shown: ConsoleView<'_>) -> Result<Value, AllocError> {
    let status = shown.status;
    let mut object = Value::Object(Map::new(alloc));
    for (name, number) in &[
        ("closed", shown.ledger.closings()),
        ("lines", shown.log.count()),
        ("open", status.open),
        ("peer", status.peer),
        ("seconds", status.seconds),
        ("station", status.station),
        ("time", status.time),
        ("waiting", status.waiting),
    ] {
        insert(alloc, &mut object, name, Value::from(*number))?;
    }
    Ok(object)
}

/// Adds a member to an object.
///
/// # Errors
///
/// `AllocError` if there is no memory for it.
pub fn insert(
    alloc: Global,
    object: &mut Value,
    name: &str,
    value: Value,
) -> Result<(), AllocError> {
    let name = String::from_str(alloc, name)?;
    if let Some(members) = object.as_object_mut() {
        members.insert(name, value)?;
    }
    Ok(())
}

/// Adds a member to an object: a text, or null if it isn't known.
///
/// # Errors
///
/// `AllocError` if there is no memory for it.
fn insert_text(
    alloc: Global,
    object: &mut Value,
    name: &str,
    text: Option<&str>,
) -> Result<(), AllocError> {
    let text = str_value(alloc, text)?;
    insert(alloc, object, name, text)
}

/// The array of the conditions by which transactions failed.
fn failed_values(alloc: Global, failed: &[Failed]) -> Result<Value, AllocError> {
    let mut values = Vec::new(alloc);
    for it in failed {
        values.push(failed_value(alloc, it)?)?;
    }
    Ok(Value::Array(values))
}

/// The array of notes for the operator.
fn note_values(alloc: Global, notes: &[NoteShown]) -> Result<Value, AllocError> {
    let mut values = Vec::new(alloc);
    for it in notes {
        values.push(note_value(alloc, it)?)?;
    }
    Ok(Value::Array(values))
}

/// The array of the causes by which something was dropped.
fn dropped_values(alloc: Global, dropped: &[Dropped]) -> Result<Value, AllocError> {
    let mut values = Vec::new(alloc);
    for it in dropped {
        values.push(dropped_value(alloc, it)?)?;
    }
    Ok(Value::Array(values))
}

/// Returns the object of `/transactions`: those that are open, and the first ones that were closed
/// after this number.
///
/// # Errors
///
/// `AllocError` if there is no memory for it.
pub fn transactions_value(
    alloc: Global,
    shown: ConsoleView<'_>,
    after: u64,
) -> Result<Value, AllocError> {
    let mut open = Vec::new(alloc);
    for it in shown.open {
        open.push(open_value(alloc, it)?)?;
    }
    let mut closed = Vec::new(alloc);
    for it in shown.ledger.closed().iter() {
        if it.number > after && closed.len() < MOST_CLOSED {
            closed.push(closed_value(alloc, it)?)?;
        }
    }
    let (open, closed) = (Value::Array(open), Value::Array(closed));
    json!(in alloc; {"closed": closed, "open": open})
}

/// Returns the object of `/files`: the names of files that may be sent.
///
/// # Errors
///
/// `AllocError` if there is no memory for it.
pub fn files_value(alloc: Global, files: &[String]) -> Result<Value, AllocError> {
    let mut names = Vec::new(alloc);
    for name in files {
        names.push(Value::String(String::from_str(alloc, name.as_str())?))?;
    }
    let names = Value::Array(names);
    json!(in alloc; {"files": names})
}

/// Returns the object of `/log`: the first lines after this number.
///
/// # Errors
///
/// `AllocError` if there is no memory for it.
pub fn log_value(alloc: Global, shown: ConsoleView<'_>, after: u64) -> Result<Value, AllocError> {
    let mut lines = Vec::new(alloc);
    let mut octets = 0usize;
    for line in shown.log.lines().iter() {
        if line.number > after && lines.len() < MOST_LINES && octets < ENOUGH_OCTETS {
            octets = octets.saturating_add(line.text.len());
            lines.push(line_value(alloc, line)?)?;
        }
    }
    let lines = Value::Array(lines);
    json!(in alloc; {"lines": lines})
}

/// The object of a line.
fn line_value(alloc: Global, line: &LogLine) -> Result<Value, AllocError> {
    json!(in alloc; {"number": line.number, "text": line.text.as_str()})
}

/// Returns the object of `/history`: what passed in each second, up to the one whose number it has.
///
/// # Errors
///
/// `AllocError` if there is no memory for it.
pub fn history_value(alloc: Global, samples: &Samples) -> Result<Value, AllocError> {
    let mut sent = Vec::new(alloc);
    let mut received = Vec::new(alloc);
    let mut lost = Vec::new(alloc);
    for it in samples.each().iter() {
        sent.push(Value::from(it.sent))?;
        received.push(Value::from(it.received))?;
        lost.push(Value::from(it.missing))?;
    }
    let (sent, received, lost) = (
        Value::Array(sent),
        Value::Array(received),
        Value::Array(lost),
    );
    let seconds = samples.second();
    json!(in alloc; {"lost": lost, "received": received, "seconds": seconds, "sent": sent})
}
