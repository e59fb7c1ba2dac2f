//! What a journal is shown of a station that takes turns.
use crate::host_place::HostJournal;
use cfdp_port::Passed;
use cfdp_station::Station;
use cfdp_store::{Inbox, Outbox};

/// Shows a journal what passed at the station. What must be on the device before a PDU leaves, or
/// the user hears of it, is there then.
pub fn sees<O: Outbox, I: Inbox>(
    journal: &HostJournal<'_>,
    passed: Passed<'_>,
    station: &Station<O, I>,
) {
    match passed {
        Passed::Ticked(_) => journal.ticks(station, &[]),
        Passed::Asked => journal.commits(station),
        Passed::Polled(_) => journal.polls(station),
        Passed::Left { .. } | Passed::Took(_) => {}
    }
}
