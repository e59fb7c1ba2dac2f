//! The details of one transaction of a running station.
use crate::station_log::overview::timer_word;
use cfdp_console::{Details, Ledger, Parts, RangeSummary, TimerShown, Traffic};
use cfdp_directives::Limits;
use cfdp_header::TransactionId;
use cfdp_receiver::Receiver;
use cfdp_station::{Phase, Record, Station, Timer};
use cfdp_store::{Inbox, Outbox};
use std::alloc::{AllocError, Global};

/// So many ranges are shown of what is held and of what is missing: the first ones.
const MOST_RANGES: usize = 64;

/// What details are made with.
#[derive(Clone, Copy)]
pub struct DetailsSetup<'a> {
    pub alloc: Global,
    /// What is known of the transactions.
    pub ledger: &'a Ledger,
    /// How often the station sends something again.
    pub limits: Limits,
    /// The time now, in units of the station's clock.
    pub now: u64,
}

/// Returns the details of a transaction.
///
/// # Errors
///
/// `AllocError` if there is no memory for them.
pub fn details_of<O: Outbox, I: Inbox>(
    setup: DetailsSetup<'_>,
    station: &Station<O, I>,
    id: TransactionId,
) -> Result<Details, AllocError> {
    let alloc = setup.alloc;
    let parts = match record_of(station, id) {
        Some(Record::Receives(receiver)) => parts_of(alloc, receiver)?,
        Some(Record::Sends(_)) | None => None,
    };
    let timers = timers_of(setup, station, id, parts.as_ref())?;
    Ok(Details { id, parts, timers })
}

/// The record of a transaction, if it has one.
fn record_of<O: Outbox, I: Inbox>(station: &Station<O, I>, id: TransactionId) -> Option<&Record> {
    for (other, record) in station.records() {
        if *other == id {
            return Some(record);
        }
    }
    None
}

/// What of a file is held and what is missing, if it is being received.
fn parts_of(alloc: Global, receiver: &Receiver) -> Result<Option<Parts>, AllocError> {
    if receiver.phase() != Phase::Receiving {
        return Ok(None);
    }
    let limit = match receiver.ending() {
        Some(ending) => ending.size,
        None => receiver.progress(),
    };
    Ok(Some(Parts {
        held: RangeSummary::of_held(alloc, MOST_RANGES, receiver.held())?,
        missing: RangeSummary::of_missing(alloc, MOST_RANGES, receiver.held(), limit)?,
        lacks_metadata: receiver.metadata().is_none(),
    }))
}

/// The timers that a transaction may wait for.
fn timers_of<O: Outbox, I: Inbox>(
    setup: DetailsSetup<'_>,
    station: &Station<O, I>,
    id: TransactionId,
    parts: Option<&Parts>,
) -> Result<Vec<TimerShown>, AllocError> {
    let mut timers = Vec::new(setup.alloc);
    if let Some(phase) = station.phase(id)
        && let Some(repeated) = repeated_in(phase)
    {
        timers.push(TimerShown {
            timer: timer_word(repeated),
            left: left_of(station, id, repeated, setup.now),
            sent: sent_of(setup.ledger, id, repeated, parts),
            limit: Some(u64::from(limit_of(setup.limits, repeated))),
        })?;
        timers.push(TimerShown {
            timer: timer_word(Timer::Inactivity),
            left: left_of(station, id, Timer::Inactivity, setup.now),
            sent: None,
            limit: None,
        })?;
    }
    Ok(timers)
}

/// In how many units of the clock a timer expires; `None` if it isn't armed.
fn left_of<O: Outbox, I: Inbox>(
    station: &Station<O, I>,
    id: TransactionId,
    timer: Timer,
    now: u64,
) -> Option<u64> {
    let deadline = station.deadline_of(id, timer)?;
    Some(deadline.saturating_sub(now))
}

/// The timer at whose expiry something is sent again in this phase.
fn repeated_in(phase: Phase) -> Option<Timer> {
    match phase {
        Phase::Sending | Phase::Cancelling => Some(Timer::EofAck),
        Phase::Receiving => Some(Timer::Nak),
        Phase::Finishing => Some(Timer::FinishedAck),
        Phase::Closed => None,
    }
}

/// How often that which a timer repeats was sent since its count began, if that is known.
fn sent_of(ledger: &Ledger, id: TransactionId, timer: Timer, parts: Option<&Parts>) -> Option<u64> {
    let passed = &ledger.get(id)?.passed;
    match timer {
        Timer::EofAck => Some(passed.eofs),
        Timer::Nak => Some(naks_in_vain(passed, parts)),
        Timer::FinishedAck => Some(passed.finisheds),
        Timer::Inactivity => None,
    }
}

/// How often that which a timer repeats may be sent again.
fn limit_of(limits: Limits, timer: Timer) -> u8 {
    match timer {
        Timer::EofAck => limits.eof,
        Timer::Nak => limits.nak,
        Timer::FinishedAck => limits.finished,
        Timer::Inactivity => 0,
    }
}

/// How many rounds of NAKs were sent since anything of the file was received: the last ones, which
/// requested what is still missing.
fn naks_in_vain(passed: &Traffic, parts: Option<&Parts>) -> u64 {
    let (Some(round), Some(parts)) = (passed.rounds.last().back(), parts) else {
        return 0;
    };
    let is_still_so = round.asked.octets() == parts.missing.octets()
        && round.has_metadata == parts.lacks_metadata;
    if is_still_so {
        passed.rounds.alike()
    } else {
        0
    }
}
