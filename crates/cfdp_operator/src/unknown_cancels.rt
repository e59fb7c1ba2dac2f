//! Transactions that an EOF cancels before anything of them has arrived.
use cfdp_entity::Record;
use cfdp_header::TransactionId;
use cfdp_station::{Phase, Station};
use cfdp_store::{Inbox, Outbox};
use std::alloc::Global;

/// The transactions that an EOF cancelled before anything else of them arrived (CCSDS 727.0-B-5,
/// 4.6.6). A station closes such a transaction and indicates nothing: what arrives of it later is
/// refused. So its operator hears of it only by what is found here.
#[derive(Drop)]
pub struct UnknownCancels {
    // The record that was opened last, as of the last look.
    newest: Option<TransactionId>,
    // Those that were found and that the station hasn't forgotten.
    found: Vec<TransactionId>,
}

impl UnknownCancels {
    /// Returns a search before the first turn.
    pub fn new(alloc: Global) -> UnknownCancels {
        UnknownCancels {
            newest: None,
            found: Vec::new(alloc),
        }
    }

    /// Returns how many were cancelled since the last look, and which one last. Look once in each
    /// turn, after its frames were received and before anything is sent.
    pub fn looks<O: Outbox, I: Inbox>(
        &mut self,
        station: &Station<O, I>,
    ) -> Option<(u64, TransactionId)> {
        self.found.retain(|id| station.phase(*id).is_some());
        let before = self.newest;
        self.newest = station.records().next_back().map(|(id, _)| *id);
        let mut count = 0u64;
        let mut last = None;
        for (id, record) in station.records().rev() {
            if before == Some(*id) {
                break;
            }
            if is_cancelled_unheard(record) && !self.found.contains(id) {
                let _ = self.found.push(*id);
                last = last.or(Some(*id));
                count = count.saturating_add(1);
            }
        }
        Some((count, last?))
    }
}

/// Returns `true` if the record was opened by an EOF that cancels, and this wasn't acknowledged:
/// it is closed without an outcome, nothing else of the file is known, and an answer is due.
fn is_cancelled_unheard(record: &Record) -> bool {
    match record {
        Record::Receives(receiver) => {
            let is_unknown = receiver.metadata().is_none() && receiver.ending().is_none();
            let is_closed = receiver.phase() == Phase::Closed && receiver.outcome().is_none();
            is_unknown && is_closed && receiver.is_due()
        }
        Record::Sends(_) => false,
    }
}
