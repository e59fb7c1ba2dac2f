//! What a run is shown as to the page, in JSON (RFC 8259).
ghost use Rattle.std.specs.Prelude.{◌≤◌, IfOk};
ghost use Rattle.serde_json.specs.Data.{depth};
ghost use Rattle.serde_json.specs.View.{view};
ghost use Rattle.cfdp_play.specs.Running.{Tells};

use crate::values::Values;
use cfdp_dump::{FrameShape, FrameShapes};
use cfdp_report::{Exit, Fault, Reason, phase_word};
use cfdp_watch::{Deed, Kept, Ran, Sighting, Standing, write_trace};
use serde_json::{Value, json};
use std::alloc::{AllocError, Global};
use std::io::BufWriter;

/// Returns what the page shows of a run that wrote this report.
///
/// # Errors
///
/// `AllocError` if there is no memory for it.
pub fn run_value(alloc: Global, ran: &Ran, report: &str) -> Result<Value, AllocError>
    ensures { IfOk result (λ it. Tells ran.now.exit report.now (view it)) }
{
    let (error, seen) = (error_of(alloc, ran.exit)?, seen_value(alloc, kept_of(ran))?);
    json!(in alloc; {
        "error": error,
        "report": report,
        "seen": seen,
        "status": u64::from(ran.exit.status()),
    })
}

/// Returns what was seen of a run, if anything was.
fn kept_of(ran: &Ran) -> Option<&Kept> {
    match &ran.seen {
        Some(seen) => seen.kept.as_ref(),
        None => None,
    }
}

/// Returns what is wrong with a script or its run, in one line; null if nothing is.
fn error_of(alloc: Global, exit: Exit) -> Result<Value, AllocError>
    ensures { IfOk result (λ it. depth (view it) ≤ 0) }
{
    match exit {
        Exit::Complete | Exit::Incomplete => Ok(Value::Null),
        Exit::BadScript(bad) => Ok(Value::String(format!(in alloc; "{bad}: {}", Reason(bad))?)),
        Exit::Device(fault) => Ok(Value::String(String::from_str(alloc, fault_text(fault))?)),
    }
}

/// Returns what failed.
fn fault_text(fault: Fault) -> &'static str {
    match fault {
        Fault::TooLong => "the script is longer than 1,048,576 octets",
        Fault::Unreadable(_) => "cannot read the script",
        Fault::Unwritable | Fault::NoMemoryAtStart | Fault::NoMemory => "out of memory",
    }
}

/// Returns what was seen: the trace, the octets of each line of it, and how far the transactions
/// are.
fn seen_value(alloc: Global, kept: Option<&Kept>) -> Result<Value, AllocError>
    ensures { IfOk result (λ it. depth (view it) ≤ 3) }
{
    let Some(kept) = kept else {
        return Ok(Value::Null);
    };
    let (octets, shapes) = (
        octets_value(alloc, kept.sightings())?,
        shapes_value(alloc, kept.shapes())?,
    );
    let (standings, trace) = (
        standings_value(alloc, kept.standings())?,
        trace(alloc, kept)?,
    );
    json!(in alloc; {
        "cut": kept.is_cut(),
        "octets": octets,
        "shapes": shapes,
        "standings": standings,
        "trace": text_of(trace.as_slice()),
    })
}

/// Returns a text, which must be ASCII, as all that the program prints.
fn text_of(octets: &[u8]) -> &str {
    str::from_utf8(octets).unwrap_or("")
}

/// Returns the trace of what was seen.
fn trace(alloc: Global, kept: &Kept) -> Result<Vec<u8>, AllocError> {
    let Ok(mut out) = BufWriter::new(alloc, Vec::new(alloc)) else {
        return Err(AllocError);
    };
    if write_trace(&mut out, kept.shapes(), kept.sightings()).is_err() {
        return Err(AllocError);
    }
    let (mut trace, waiting) = out.into_parts();
    trace.extend_from_slice(waiting.as_slice())?;
    Ok(trace)
}

/// Returns the octets of each frame and each PDU that was seen, in hexadecimal; nothing of anything
/// else.
fn octets_value(alloc: Global, sightings: &[Sighting]) -> Result<Value, AllocError>
    ensures { IfOk result (λ it. depth (view it) ≤ 2) }
{
    let mut all = Values::new(alloc);
    for it in sightings {
        all.push(Value::String(octets_text(alloc, it)?))?;
    }
    Ok(all.into_value())
}

fn octets_text(alloc: Global, it: &Sighting) -> Result<String, AllocError> {
    match it.deed {
        Deed::SendsFrame(_)
        | Deed::TakesFrame(_)
        | Deed::LosesFrame(_)
        | Deed::SendsPdu(_)
        | Deed::HearsPdu => hex::encode(alloc, it.octets.as_slice()),
        Deed::Ticks | Deed::Drops | Deed::Tells => Ok(String::new(alloc)),
    }
}

/// Returns what the frames are made of that each station sends.
fn shapes_value(alloc: Global, shapes: FrameShapes) -> Result<Value, AllocError>
    ensures { IfOk result (λ it. depth (view it) ≤ 2) }
{
    let (one, two) = (
        shape_value(alloc, shapes.one)?,
        shape_value(alloc, shapes.two)?,
    );
    json!(in alloc; [one, two])
}

fn shape_value(alloc: Global, shape: FrameShape) -> Result<Value, AllocError>
    ensures { IfOk result (λ it. depth (view it) ≤ 1) }
{
    json!(in alloc; {
        "check": shape.fields.error_control,
        "control": shape.fields.control_field,
        "insert": u64::from(shape.fields.insert_zone),
        "zone": u64::from(shape.zone),
    })
}

/// Returns how far the transactions are that have a record at a station.
fn standings_value(alloc: Global, standings: &[Standing]) -> Result<Value, AllocError>
    ensures { IfOk result (λ it. depth (view it) ≤ 2) }
{
    let mut all = Values::new(alloc);
    for it in standings {
        all.push(standing_value(alloc, it)?)?;
    }
    Ok(all.into_value())
}

fn standing_value(alloc: Global, it: &Standing) -> Result<Value, AllocError>
    ensures { IfOk result (λ it. depth (view it) ≤ 1) }
{
    let id = format!(in alloc; "{}:{}", it.id.source, it.id.number)?;
    json!(in alloc; {
        "eof_ack": number(it.eof_ack),
        "finished_ack": number(it.finished_ack),
        "id": id.as_str(),
        "inactivity": number(it.inactivity),
        "nak": number(it.nak),
        "phase": phase_word(it.phase),
        "progress": number(it.progress),
        "station": it.station.entity(),
    })
}

/// Returns a number, or null if it isn't known.
fn number(value: Option<u64>) -> Value
    ensures { depth (view result) ≤ 0 }
{
    match value {
        Some(number) => Value::from(number),
        None => Value::Null,
    }
}
