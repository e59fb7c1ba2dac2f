//! A connection over which lines come and are answered.
ghost use Rattle.std.specs.Prelude.{◌≡◌, ◌≢◌, ◌⊎◌, ◌<◌, [], vec_len, IfNone, IsFalse, IsTrue};
ghost use Rattle.cfdp_console.specs.LastLines.{HasNoEnd};
ghost use Rattle.cfdp_control.specs.Lines.{Gives, came_to, waiting_in};

use crate::line::LineFault;
use crate::line_buffer::LineBuffer;
use crate::stream::Stream;
use libc::net::{POLLIN, POLLOUT};
use std::alloc::Global;
use std::io::{ErrorKind, Read, Write};
use std::os::fd::RawFd;

/// The octets that are read at once, at most.
const MOST_READ: usize = 4096;

/// The most octets of answers that wait to be sent. A connection with more is dropped.
const MOST_ANSWERS: usize = 1 << 20;

/// While more octets of answers wait to be sent, no more lines are taken.
const ENOUGH_ANSWERS: usize = 1 << 16;

/// After so many milliseconds in which nothing came, a connection that awaits nothing is dropped.
const IDLE: u64 = 600_000;

/// After so many milliseconds in which nothing of its answers left, a connection is dropped.
const STUCK: u64 = 30_000;

/// For so many milliseconds what comes after the last answer is discarded, at most.
const LEAVING: u64 = 2_000;

/// How far a connection is.
#[derive(Clone, Copy, PartialEq, Eq)]
enum Stage {
    /// Its lines are taken.
    Open,
    /// No more is read. It is left once all that came is answered.
    Ending,
    /// All is answered, and its other end knows that nothing more comes. What comes is discarded:
    /// if
    /// something lay in a socket that is closed, the answer would be lost at its other end.
    Leaving,
    /// It is over.
    Gone,
}

/// A connection over which lines come and are answered. No call waits.
#[derive(Drop)]
pub struct Connection {
    number: u64,
    stream: Stream,
    lines: LineBuffer,
    stage: Stage,
    // What must be sent, and how many lines were taken that aren't answered yet.
    answers: Vec<u8>,
    owed: u64,
    // When something came or left last, and when it came or was answered last, in milliseconds.
    moved_at: u64,
    waits_from: u64,
}

impl Connection {
    /// Returns a connection of this number that came at this time. The stream doesn't wait.
    pub fn new(alloc: Global, number: u64, stream: Stream, now: u64) -> Connection {
        Connection {
            number,
            stream,
            lines: LineBuffer::new(alloc),
            stage: Stage::Open,
            answers: Vec::new(alloc),
            owed: 0,
            moved_at: now,
            waits_from: now,
        }
    }

    /// Returns the number by which it is known.
    pub fn number(&self) -> u64
        ensures { result ≡ self.now.number }
    {
        self.number
    }

    /// Returns `true` if it may still send lines.
    pub fn is_open(&self) -> bool {
        self.stage == Stage::Open
    }

    /// Returns `true` if it is over.
    pub fn is_gone(&self) -> bool {
        self.stage == Stage::Gone
    }

    /// Returns since when it sends no whole line, or takes nothing of its answers, in milliseconds;
    /// `None` if it may send no line any more, or an answer is due.
    pub fn idle_since(&self) -> Option<u64> {
        if !self.is_open() || self.owed > 0 {
            None
        } else if !self.answers.is_empty() {
            Some(self.moved_at)
        } else if self.lines.has_line() {
            None
        } else {
            Some(self.waits_from)
        }
    }

    /// Returns its descriptor, and the events to wait for: none if it waits for an answer.
    pub fn watched(&self) -> (RawFd, i16) {
        let reads = match self.stage {
            Stage::Open => !self.lines.has_line(),
            Stage::Leaving => true,
            Stage::Ending | Stage::Gone => false,
        };
        let reading = if reads { POLLIN } else { 0 };
        let sending = if self.answers.is_empty() { 0 } else { POLLOUT };
        (self.stream.fd(), reading | sending)
    }

    /// Returns `true` if a line may be taken: one lies here, and its answers aren't left to wait.
    pub fn has_line(&self) -> bool
        ensures some { IsTrue result → waiting_in self.now.lines ≢ [] }
        ensures none { IsFalse result → HasNoEnd (waiting_in self.now.lines)
            ⊎ (65536 < vec_len self.now.answers) }
    {
        let is_whole = self.lines.has_line()
            || self.stage == Stage::Ending && !self.lines.is_empty();
        is_whole && self.answers.len() <= ENOUGH_ANSWERS
    }

    /// Takes the next line. After one that is too long, or no line of an operator, no more are.
    #[tactic(auto, using(crate::proofs::Giving::refused_all))]
    pub fn next_line(&mut self) -> Option<Result<String, LineFault>>
        ensures given { Gives self.old.lines result self.new.lines }
        // A whole line waits only while many octets of answers do.
        ensures none { IfNone result (HasNoEnd (waiting_in self.old.lines)
            ⊎ (65536 < vec_len self.old.answers)) }
        ensures number { self.new.number ≡ self.old.number }
    {
        if !self.has_line() {
            return None;
        }
        self.owed = self.owed.saturating_add(1);
        match self.lines.next_text() {
            Some(Ok(text)) => Some(Ok(text)),
            Some(Err(LineFault::NotText)) => Some(Err(LineFault::NotText)),
            Some(Err(fault)) => Some(Err(self.ends_lines(fault))),
            None => Some(Err(self.ends_lines(LineFault::NoEnd))),
        }
    }

    /// Takes no more lines after one that has this fault, and drops what lies here.
    fn ends_lines(&mut self, fault: LineFault) -> LineFault
        ensures same { result ≡ fault }
        ensures none { waiting_in self.new.lines ≡ [] }
        ensures all { came_to self.new.lines ≡ came_to self.old.lines }
        ensures number { self.new.number ≡ self.old.number }
    {
        self.lines.clear();
        self.stage = Stage::Ending;
        fault
    }

    /// Takes no more lines: it is left once this is sent.
    pub fn refuse(&mut self, answer: &str, now: u64) {
        self.stage = Stage::Ending;
        self.owed = 1;
        self.answer(answer, now);
    }

    /// Answers a line that was taken: sends these octets, or has them wait.
    pub fn answer(&mut self, answer: &str, now: u64) {
        self.owed = self.owed.saturating_sub(1);
        self.waits_from = now;
        if self.answers.is_empty() {
            self.moved_at = now;
        }
        let is_kept = self.answers.extend_from_slice(answer.as_bytes()).is_ok();
        self.sends(now);
        if !is_kept || self.answers.len() > MOST_ANSWERS {
            self.stage = Stage::Gone;
        }
    }

    /// Ends at once after this line, if there is room for it.
    pub fn gives_way(&mut self, why: &str) {
        if self.answers.is_empty() {
            let _ = self.stream.write(why.as_bytes());
        }
        let _ = self.stream.shuts();
        self.stage = Stage::Gone;
    }

    /// Ends at once, with nothing more said.
    pub fn breaks_off(&mut self) {
        self.stage = Stage::Gone;
    }

    /// Does what can be done now: sends and reads, if something is there, and ends if it
    /// is over.
    pub fn attend(&mut self, now: u64, is_stirred: bool) {
        if is_stirred {
            self.sends(now);
            match self.stage {
                Stage::Open => self.reads(now),
                Stage::Leaving => self.throws_away(),
                Stage::Ending | Stage::Gone => {}
            }
        }
        self.ends(now);
    }

    /// Sends what the system has room for.
    fn sends(&mut self, now: u64) {
        if self.answers.is_empty() {
            return;
        }
        match self.stream.write(self.answers.as_slice()) {
            Ok(0) => {}
            Ok(len) => {
                let all = self.answers.len();
                self.answers.copy_within(len..all, 0);
                self.answers.truncate(all - len);
                self.moved_at = now;
            }
            Err(error) => self.fails(error.kind()),
        }
    }

    /// Reads what came, if no line waits.
    fn reads(&mut self, now: u64) {
        if self.lines.has_line() {
            return;
        }
        let mut buffer = [0u8; MOST_READ];
        let room = self.lines.room().min(MOST_READ);
        match self.stream.read(&mut buffer[..room]) {
            Ok(0) => self.stage = Stage::Ending,
            Ok(len) => {
                self.moved_at = now;
                if self.lines.add(&buffer[..len]).is_err() {
                    self.stage = Stage::Gone;
                }
            }
            Err(error) => self.fails(error.kind()),
        }
    }

    /// Discards what came, until its other end is closed.
    fn throws_away(&mut self) {
        let mut buffer = [0u8; MOST_READ];
        match self.stream.read(&mut buffer) {
            Ok(0) => self.stage = Stage::Gone,
            Ok(_) => {}
            Err(error) => self.fails(error.kind()),
        }
    }

    /// The system sent or read nothing, for this cause.
    fn fails(&mut self, kind: ErrorKind) {
        if kind != ErrorKind::WouldBlock && kind != ErrorKind::Interrupted {
            self.stage = Stage::Gone;
        }
    }

    /// Goes on to the next stage, if it is time for that.
    fn ends(&mut self, now: u64) {
        let rests = now.saturating_sub(self.moved_at);
        let is_answered = self.answers.is_empty() && self.owed == 0;
        match self.stage {
            Stage::Open if is_answered && !self.has_line() && rests >= IDLE => self.leaves(now),
            Stage::Ending if is_answered && !self.has_line() => self.leaves(now),
            Stage::Leaving if rests >= LEAVING => self.stage = Stage::Gone,
            Stage::Open | Stage::Ending if !self.answers.is_empty() && rests >= STUCK => {
                self.stage = Stage::Gone;
            }
            _ => {}
        }
    }

    /// Notifies its other end that nothing more comes.
    fn leaves(&mut self, now: u64) {
        self.moved_at = now;
        self.stage = match self.stream.shuts() {
            Ok(()) => Stage::Leaving,
            Err(_) => Stage::Gone,
        };
    }
}
