//! The details of one transaction, as JSON (RFC 8259).
ghost use Rattle.std.specs.Prelude.{◌≡◌, IfOk, map};
ghost use Rattle.serde_json.specs.Data.{array};
ghost use Rattle.serde_json.specs.View.{items_of, view};
ghost use Rattle.cfdp_console.specs.Details.{pair_data, ranges_data, round_data, timer_data};

use crate::documents::{insert, number};
use crate::passed::Traffic;
use crate::ranges::RangeSummary;
use crate::rounds::{Round, Rounds};
use crate::shown::{ConsoleView, Parts, TimerShown};
use serde_json::{Map, Value, json};
use std::alloc::{AllocError, Global};

/// Returns the object of `/transactions/ID/details`, with the object of that transaction.
///
/// # Errors
///
/// `AllocError` if there is no memory for it.
pub fn details_value(
    alloc: Global,
    shown: ConsoleView<'_>,
    transaction: Value,
) -> Result<Value, AllocError> {
    let mut object = Value::Object(Map::new(alloc));
    insert(alloc, &mut object, "transaction", transaction)?;
    let Some(details) = shown.details else {
        return Ok(object);
    };
    insert_parts(alloc, &mut object, &details.parts)?;
    let timers = array_value(timer_values(alloc, details.timers.as_slice())?);
    insert(alloc, &mut object, "timers", timers)?;
    match shown.ledger.get(details.id) {
        Some(known) => insert_passed(alloc, &mut object, &known.passed)?,
        None => insert_nothing(alloc, &mut object)?,
    }
    Ok(object)
}

/// Adds that it isn't known what passed over the link.
fn insert_nothing(alloc: Global, object: &mut Value) -> Result<(), AllocError> {
    insert(alloc, object, "sent_again", Value::Null)?;
    insert(alloc, object, "rounds", Value::Null)
}

/// Adds what is held and what is missing; null if the file isn't being received.
fn insert_parts(
    alloc: Global,
    object: &mut Value,
    parts: &Option<Parts>,
) -> Result<(), AllocError> {
    let (held, missing, lacks) = match parts {
        Some(parts) => (
            ranges_value(alloc, &parts.held)?,
            ranges_value(alloc, &parts.missing)?,
            Value::Bool(parts.lacks_metadata),
        ),
        None => (Value::Null, Value::Null, Value::Null),
    };
    insert(alloc, object, "held", held)?;
    insert(alloc, object, "missing", missing)?;
    insert(alloc, object, "lacks_metadata", lacks)
}

/// Adds what passed over the link.
fn insert_passed(alloc: Global, object: &mut Value, passed: &Traffic) -> Result<(), AllocError> {
    let (pdus, octets) = (passed.again, passed.octets_again);
    let again = json!(in alloc; {"octets": octets, "pdus": pdus})?;
    insert(alloc, object, "sent_again", again)?;
    let rounds = rounds_value(alloc, &passed.rounds)?;
    insert(alloc, object, "rounds", rounds)
}

/// The object of the rounds of NAKs.
fn rounds_value(alloc: Global, rounds: &Rounds) -> Result<Value, AllocError> {
    let last = array_value(round_values(alloc, rounds)?);
    let (count, naks) = (rounds.count(), rounds.naks());
    json!(in alloc; {"count": count, "last": last, "naks": naks})
}

/// The objects of the last rounds.
fn round_values(alloc: Global, rounds: &Rounds) -> Result<Vec<Value>, AllocError> {
    let mut values = Vec::new(alloc);
    for round in rounds.last().iter() {
        values.push(round_value(alloc, round)?)?;
    }
    Ok(values)
}

/// The object of a round.
fn round_value(alloc: Global, round: &Round) -> Result<Value, AllocError>
    ensures { IfOk result (λ it. view it ≡ round_data round.now) }
{
    let asked = ranges_value(alloc, &round.asked)?;
    json!(in alloc; {
        "asked": asked,
        "end": round.end,
        "metadata": round.has_metadata,
        "naks": round.naks,
        "number": round.number,
        "start": round.start,
        "time": round.time,
    })
}

/// The objects of timers.
fn timer_values(alloc: Global, timers: &[TimerShown]) -> Result<Vec<Value>, AllocError>
    ensures { IfOk result (λ values. map view values.items ≡ map timer_data timers.now) }
{
    let mut values = Vec::new(alloc);
    for timer in timers {
        values.push(timer_value(alloc, timer)?)?;
    }
    Ok(values)
}

/// The object of a timer.
fn timer_value(alloc: Global, it: &TimerShown) -> Result<Value, AllocError>
    ensures { IfOk result (λ value. view value ≡ timer_data it.now) }
{
    json!(in alloc; {
        "left": number(it.left),
        "limit": number(it.limit),
        "sent": number(it.sent),
        "timer": it.timer,
    })
}

/// The object of ranges: the first ones, how many there are, and how many octets they have.
fn ranges_value(alloc: Global, ranges: &RangeSummary) -> Result<Value, AllocError>
    ensures { IfOk result (λ it. view it ≡ ranges_data ranges.now) }
{
    let first = array_value(pair_values(alloc, ranges.first())?);
    let (count, octets) = (ranges.count(), ranges.octets());
    json!(in alloc; {"count": count, "octets": octets, "ranges": first})
}

/// Ranges, each an array of its start and its end.
fn pair_values(alloc: Global, pairs: &[(u64, u64)]) -> Result<Vec<Value>, AllocError>
    ensures { IfOk result (λ values. map view values.items ≡ map pair_data pairs.now) }
{
    let mut values = Vec::new(alloc);
    for pair in pairs {
        values.push(pair_value(alloc, *pair)?)?;
    }
    Ok(values)
}

/// The array of the start and the end of a range.
fn pair_value(alloc: Global, pair: (u64, u64)) -> Result<Value, AllocError>
    ensures { IfOk result (λ value. view value ≡ pair_data pair) }
{
    let (start, end) = pair;
    json!(in alloc; [start, end])
}

/// An array of values.
fn array_value(values: Vec<Value>) -> Value
    ensures { view result ≡ array (items_of (map view values.items)) }
{
    Value::Array(values)
}
