//! How far a transfer is, in one line on a terminal.
use crate::pace::{Pace, Sending};
use cfdp_extents::Extents;
use cfdp_header::TransactionId;
use std::alloc::Global;
use std::cell::Cell;
use std::io::IsTerminal;
use std::time::{Duration, Instant};

/// The line is written at most once in so many milliseconds.
const PAUSE: u64 = 100;

/// How much of a file has come.
#[derive(Clone, Copy)]
struct Received {
    octets: u64,
    gaps: u64,
}

/// How much of a file was sent.
#[derive(Clone, Copy)]
struct Sent {
    id: TransactionId,
    octets: u64,
    size: u64,
    /// Octets a second, and how they were counted; `None` before the first count.
    rate: u64,
    pace: Option<Pace>,
}

/// How far a transfer is. If standard error is a terminal, one line on it says so, which is written
/// again and again; elsewhere nothing is written. If it can't be written nothing is said of that.
#[derive(Drop)]
pub struct Progress<'a> {
    rt: &'a HostRuntime,
    // When the line was written last, or all began; `None` if there is no line.
    written: Cell<Option<Instant>>,
    received: Cell<Received>,
    pdus: Cell<u64>,
    // When all began, if there is a line.
    start: Option<Instant>,
    // The file that is being sent, if one is, and its name.
    sent: Cell<Option<Sent>>,
    name: Cell<Option<Vec<u8>>>,
}

impl Progress<'_> {
    /// Begins before the first PDU.
    pub fn new(rt: &HostRuntime) -> Progress<'_> {
        let written = if rt.stderr().is_terminal() {
            Instant::now(rt).ok()
        } else {
            None
        };
        Progress {
            rt,
            written: Cell::new(written),
            received: Cell::new(Received { octets: 0, gaps: 0 }),
            pdus: Cell::new(0),
            start: written,
            sent: Cell::new(None),
            name: Cell::new(None),
        }
    }

    /// Returns `true` if there is a line.
    pub fn is_shown(&self) -> bool {
        self.written.get().is_some()
    }

    /// Counts one PDU more that a station sent.
    pub fn counts_pdu(&self) {
        self.pdus.set(self.pdus.get().saturating_add(1));
    }

    /// Says from now on how far this file is, which is being sent, in place of what was received.
    /// If there is no memory for its name, nothing is said of it.
    pub fn sends(&self, id: TransactionId, name: &[u8], size: u64) {
        if self.sending() == Some(id) {
            return;
        }
        let Ok(name) = Vec::from_slice(self.rt.alloc(), name) else {
            self.sends_nothing();
            return;
        };
        self.name.set(Some(name));
        self.sent.set(Some(Sent {
            id,
            octets: 0,
            size,
            rate: 0,
            pace: None,
        }));
    }

    /// Says from now on what was received, since no file is being sent.
    pub fn sends_nothing(&self) {
        if self.sent.take().is_some() {
            self.yields();
        }
    }

    /// Returns the transaction of the file that is being sent, if one is.
    pub fn sending(&self) -> Option<TransactionId> {
        match self.sent.get() {
            Some(sent) => Some(sent.id),
            None => None,
        }
    }

    /// Notes that so many octets of the file that is being sent were sent.
    pub fn comes_to(&self, octets: u64) {
        if let Some(sent) = self.sent.get() {
            self.sent.set(Some(Sent { octets, ..sent }));
        }
    }

    /// Counts how fast the file goes that is being sent, if one is.
    fn counts_rate(&self) {
        if let Some(sent) = self.sent.get() {
            let now = self.milliseconds();
            let mut pace = sent.pace.unwrap_or(Pace::new(now, sent.octets));
            let rate = pace.rate(now, sent.octets);
            self.sent.set(Some(Sent {
                rate,
                pace: Some(pace),
                ..sent
            }));
        }
    }

    /// Returns the milliseconds since the start.
    fn milliseconds(&self) -> u64 {
        match self.start {
            Some(start) => match start.elapsed(self.rt) {
                Ok(since) => u64::try_from(since.as_millis()).unwrap_or(u64::MAX),
                Err(_) => 0,
            },
            None => 0,
        }
    }

    /// Returns the time now, if the line must be written.
    fn due(&self) -> Option<Instant> {
        let before = self.written.get()?;
        let now = Instant::now(self.rt).ok()?;
        if now.duration_since(before) >= Duration::from_millis(PAUSE) {
            Some(now)
        } else {
            None
        }
    }

    /// Writes the line, unless a tenth of a second isn't over since it was written last.
    pub fn goes_on(&self) {
        if let Some(now) = self.due() {
            self.counts_rate();
            self.write("");
            self.written.set(Some(now));
        }
    }

    /// Takes the line away, so that others can be written in its place. It comes back in time.
    pub fn yields(&self) {
        if self.is_shown() {
            let _ = eprint!(self.rt; "\r\u{1b}[K");
        }
    }

    /// Writes the line for the last time: what was received, and how many PDUs were sent.
    pub fn ends(&self) {
        if self.is_shown() {
            self.sends_nothing();
            self.write("\n");
            self.written.set(None);
        }
    }

    /// Writes the line in the place of the one that stands there.
    fn write(&self, end: &str) {
        match (self.sent.get(), self.name.take()) {
            (Some(sent), Some(name)) => {
                let Sent {
                    octets,
                    size,
                    rate,
                    ..
                } = sent;
                let sending = Sending::new(name.as_slice(), octets, size, rate);
                let _ = eprint!(self.rt; "\r\u{1b}[K{sending}{end}");
                self.name.set(Some(name));
            }
            _ => self.write_received(end),
        }
    }

    /// Writes what was received, and how many PDUs were sent.
    fn write_received(&self, end: &str) {
        let Received { octets, gaps } = self.received.get();
        let pdus = self.pdus.get();
        let _ = eprint!(self.rt;
            "\r{octets:7} octets received, {gaps:3} gaps, {pdus:5} PDUs sent{end}"
        );
    }
}

/// Which octets have come of the file that began to come last.
#[derive(Drop)]
pub struct Reception<'a> {
    alloc: Global,
    id: Option<TransactionId>,
    held: Extents,
    progress: &'a Progress<'a>,
}

impl Reception<'_> {
    /// Begins before the first octet.
    pub fn new<'a>(alloc: Global, progress: &'a Progress<'a>) -> Reception<'a> {
        Reception {
            alloc,
            id: None,
            held: Extents::new(alloc),
            progress,
        }
    }

    /// Notes that the file of this transaction begins to come.
    pub fn begins(&mut self, id: TransactionId) {
        self.id = Some(id);
        self.held = Extents::new(self.alloc);
    }

    /// Notes that so many octets came from this offset of a file on. If there is no memory for
    /// that, less is said of how far the transfer is.
    pub fn notes(&mut self, id: TransactionId, offset: u64, len: usize) {
        if !self.progress.is_shown() || self.id != Some(id) {
            return;
        }
        let end = offset.saturating_add(len as u64);
        if self.held.insert(offset, end).is_ok() {
            self.progress.received.set(counted(&self.held));
        }
    }
}

/// Returns how many of these offsets there are, and how many gaps lie between them.
fn counted(held: &Extents) -> Received {
    let end = held.end();
    let (mut octets, mut gaps) = (end, 0u64);
    for (from, to) in held.missing(end) {
        octets = octets.saturating_sub(to.saturating_sub(from));
        gaps = gaps.saturating_add(1);
    }
    Received { octets, gaps }
}
