//! The numbers that a station reserves as it runs.
use crate::machine_clock::MachineClock;
use crate::pacer::SECOND;
use crate::shared_numbers::SharedNumbers;
use cfdp_exchange::Exchange;

/// When the numbers of a station are reserved: counts of frames as these leave, transaction numbers
/// as they are wanted, and which frame was accepted last, a second after one was.
#[derive(Drop)]
pub struct Reserving<'a, 'n> {
    exchange: &'a Exchange,
    numbers: &'a SharedNumbers<'n>,
    machine: MachineClock<'a>,
    // Times in nanoseconds since the start: when transaction numbers may be reserved again, if they
    // couldn't be; and when it is noted exactly which frame was accepted last, if that isn't noted
    // yet.
    numbers_due: u64,
    settle_at: Option<u64>,
}

impl<'a, 'n> Reserving<'a, 'n> {
    /// Returns what reserves these numbers, by this clock.
    pub fn new(
        exchange: &'a Exchange,
        numbers: &'a SharedNumbers<'n>,
        machine: MachineClock<'a>,
    ) -> Reserving<'a, 'n> {
        Reserving {
            exchange,
            numbers,
            machine,
            numbers_due: 0,
            settle_at: None,
        }
    }

    /// Notes that one frame more leaves. Returns `false` if that can't be noted: it must not leave.
    pub fn covers_next(&self) -> bool {
        let stop = self.numbers.covers_next().err();
        self.exchange.no_counts.set(stop);
        stop.is_none()
    }

    /// Returns `true` if transaction numbers are wanted and may be reserved now: if they couldn't
    /// be, that is tried once a second.
    pub fn may_add(&self) -> bool {
        self.exchange.wants_numbers.get() && self.since_start() >= self.numbers_due
    }

    /// Reserves transaction numbers if it may.
    pub fn adds(&mut self) {
        if !self.may_add() {
            return;
        }
        self.exchange.wants_numbers.set(false);
        let added = self.numbers.adds_numbers();
        self.exchange.numbers_left.set(added.unwrap_or(0));
        let stop = added.err();
        self.exchange.no_numbers.set(stop);
        if stop.is_some() {
            self.numbers_due = self.since_start().saturating_add(SECOND);
        }
    }

    /// Notes exactly which frame was accepted last, a second after one was. If that can't be noted
    /// it is tried once a second.
    pub fn settles(&mut self) {
        let now = self.since_start();
        let has_accepted = self.numbers.has_accepted();
        match self.settle_at {
            Some(at) if now < at => {}
            Some(_) if self.numbers.settles().is_ok() => self.settle_at = None,
            None if !has_accepted => {}
            _ => self.settle_at = Some(now.saturating_add(SECOND)),
        }
    }

    /// Returns the time in nanoseconds since the start.
    fn since_start(&self) -> u64 {
        self.machine.since_start(self.numbers_due)
    }
}
