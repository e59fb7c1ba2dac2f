//! What passed of a transaction over the link.
use crate::rounds::{Nak, Rounds};
use std::alloc::Global;

/// What passed of a transaction over the link, as far as it was followed. Counts stay at the
/// greatest `u64`.
#[derive(Drop)]
pub struct Traffic {
    /// The NAKs: those that its sender received, or its receiver sent.
    pub rounds: Rounds,
    /// How many PDUs of file data its sender sent again since a NAK requested them, and how many
    /// octets of the file they had.
    pub again: u64,
    pub octets_again: u64,
    /// How often its sender sent the EOF of this condition since that was first due, or since the
    /// transaction was resumed.
    pub eofs: u64,
    eof_condition: u8,
    /// How often its receiver sent its Finished.
    pub finisheds: u64,
}

impl Traffic {
    /// Nothing has passed yet.
    pub fn new(alloc: Global) -> Traffic {
        Traffic {
            rounds: Rounds::new(alloc),
            again: 0,
            octets_again: 0,
            eofs: 0,
            eof_condition: 0,
            finisheds: 0,
        }
    }

    /// Notes a NAK that was sent or received at this time, in milliseconds since 1970.
    pub fn notes_nak(&mut self, nak: &Nak, time: u64) {
        self.rounds.notes(nak, time);
    }

    /// Notes a PDU with so many octets of the file, which were sent before.
    pub fn notes_again(&mut self, octets: u64) {
        self.again = self.again.saturating_add(1);
        self.octets_again = self.octets_again.saturating_add(octets);
    }

    /// Notes an EOF of this condition.
    pub fn notes_eof(&mut self, condition: u8) {
        if condition != self.eof_condition {
            self.eofs = 0;
        }
        self.eof_condition = condition;
        self.eofs = self.eofs.saturating_add(1);
    }

    /// Notes a Finished.
    pub fn notes_finished(&mut self) {
        self.finisheds = self.finisheds.saturating_add(1);
    }

    /// Counts EOFs, and rounds of NAKs in a row, from 0 on again: the transaction was resumed, or a
    /// limit was reached.
    pub fn counts_anew(&mut self) {
        self.eofs = 0;
        self.rounds.counts_anew();
    }
}
