//! How far the transactions of stations are.
use cfdp_header::TransactionId;
use cfdp_station::{Phase, Station, Timer};
use cfdp_store::{Inbox, Outbox};
use station_pair::Side;
use std::alloc::{AllocError, Global};

/// How far a transaction is that has a record at a station.
#[derive(Clone, Copy)]
pub struct Standing {
    pub station: Side,
    pub id: TransactionId,
    pub phase: Phase,
    /// Up to which offset octets of its file were sent, or came.
    pub progress: Option<u64>,
    /// When its timers expire, in units of the station's clock; `None` if one isn't armed.
    pub eof_ack: Option<u64>,
    pub nak: Option<u64>,
    pub finished_ack: Option<u64>,
    pub inactivity: Option<u64>,
}

/// Returns how far all transactions are that have a record, those of station 1 first.
///
/// # Errors
///
/// `AllocError` if there is no memory for it.
pub fn standings<O: Outbox, I: Inbox>(
    alloc: Global,
    stations: (&Station<O, I>, &Station<O, I>),
) -> Result<Vec<Standing>, AllocError> {
    let mut all = Vec::new(alloc);
    add_standings(&mut all, Side::One, stations.0)?;
    add_standings(&mut all, Side::Two, stations.1)?;
    Ok(all)
}

/// Adds those of a station.
fn add_standings<O: Outbox, I: Inbox>(
    all: &mut Vec<Standing>,
    side: Side,
    station: &Station<O, I>,
) -> Result<(), AllocError> {
    for (id, phase) in station.transactions() {
        all.push(standing_of(side, station, id, phase))?;
    }
    Ok(())
}

/// Returns how far one of them is.
fn standing_of<O: Outbox, I: Inbox>(
    side: Side,
    station: &Station<O, I>,
    id: TransactionId,
    phase: Phase,
) -> Standing {
    Standing {
        station: side,
        id,
        phase,
        progress: station.progress(id),
        eof_ack: station.deadline_of(id, Timer::EofAck),
        nak: station.deadline_of(id, Timer::Nak),
        finished_ack: station.deadline_of(id, Timer::FinishedAck),
        inactivity: station.deadline_of(id, Timer::Inactivity),
    }
}
