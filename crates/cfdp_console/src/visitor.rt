//! A connection of the console: how far it is, and the stream that carries its octets.
ghost use Rattle.std.specs.Prelude.{◌≡◌, ◌≤◌, ◌++◌, IfOk, OnErr, length, take};
ghost use Rattle.std.specs.Io.KnownBytes.{Consumes};
ghost use Rattle.cfdp_console.specs.Hearing.{Heard, HearsNothing, Listens, Reads};
ghost use Rattle.cfdp_console.specs.Came.{HasHeard, most_octets};

use crate::answer::WebAnswer;
use crate::asking::Ask;
use crate::caller::Caller;
use crate::guard::Guard;
use crate::piece::Piece;
use crate::stream::WebStream;
use ghost_list::GhostList;
use std::alloc::{AllocError, Global};
use std::hash::RandomState;
use std::io;
use std::io::ErrorKind;

/// The most octets of a request, with its head.
const MOST_OCTETS: usize = 65_536;

/// The most octets that are read over a connection in one turn.
const MOST_READ: usize = 4096;

/// The most milliseconds in which what comes after the answer is discarded.
const LEAVING: u64 = 1_000;

/// What a connection waits for.
#[derive(Clone, Copy, PartialEq, Eq)]
pub struct Wants {
    /// Whether it waits for octets.
    pub octets: bool,
    /// Whether it waits for room in the stream.
    pub room: bool,
}

/// A connection of the console. It is left once nothing more is asked over it: the other end is
/// notified that nothing more comes, and what it sends until it is closed there is discarded, for a
/// second at most; if something lay in a socket that is closed, the answer would be lost.
#[derive(Drop)]
pub struct Visitor<S: WebStream> {
    number: u64,
    stream: S,
    pub(crate) caller: Caller,
    // All octets that were read over the stream until it is left. Only clauses see them.
    pub(crate) came: GhostList<u8>,
    // How many octets came since its last answer.
    heard: usize,
    // Since when it is left, in milliseconds.
    left_at: Option<u64>,
    is_over: bool,
    ghost within: { heard ≤ most_octets },
    ghost all_heard: { HasHeard caller came },
}

impl<S: WebStream> Visitor<S> {
    ghost use Rattle.cfdp_console.specs.Serving.{Attends, BringsNothing, IsNew};

    /// Returns the connection of this number that came at this time. The names of the fields of its
    /// requests are kept under secret keys.
    pub(crate) fn new(
        alloc: Global,
        number: u64,
        stream: S,
        keys: RandomState,
        now: u64,
    ) -> Visitor<S>
        ensures { IsNew result }
    {
        Visitor {
            number,
            stream,
            caller: Caller::new(alloc, keys, now),
            came: GhostList::new(),
            heard: 0,
            left_at: None,
            is_over: false,
        }
    }

    /// Returns the number by which it is known.
    pub fn number(&self) -> u64
        ensures { result ≡ self.now.number }
    {
        self.number
    }

    /// Returns the stream that carries its octets.
    pub fn stream(&self) -> &S {
        &self.stream
    }

    /// Returns what it waits for.
    pub fn wants(&self) -> Wants {
        Wants {
            octets: self.left_at.is_some() || self.caller.wants_octets(),
            room: self.left_at.is_none() && self.caller.has_output(),
        }
    }

    /// Returns `true` if something must be done with it whatever comes.
    pub fn is_due(&self) -> bool {
        self.is_over || self.left_at.is_none() && (self.caller.is_gone() || self.caller.is_anew())
    }

    /// Returns `true` if it is over: its stream must be closed.
    pub fn is_over(&self) -> bool
        ensures { result ≡ self.now.is_over }
    {
        self.is_over
    }

    /// Does what can be done now: sends a piece, takes a piece, or leaves it. Returns what it asks,
    /// if its next request is whole and it may ask that by the guard: that must be answered.
    pub fn attend(&mut self, guard: &Guard, now: u64) -> Option<Ask>
        ensures { Attends guard.now self.old self.new result }
    {
        self.looks_at_clock(now);
        self.sends(now);
        self.goes_on(guard, now)
    }

    /// Takes a piece, or leaves it. Returns what it asks.
    fn goes_on(&mut self, guard: &Guard, now: u64) -> Option<Ask>
        ensures { Attends guard.now self.old self.new result }
    {
        if self.caller.is_gone() {
            self.leaves(now);
            None
        } else if self.caller.is_anew() {
            self.heard = 0;
            self.caller.goes_on(guard, now)
        } else if self.caller.wants_octets() {
            self.hears(guard, now)
        } else {
            None
        }
    }

    /// Answers what it asked; it is left without an answer if there is no memory for one.
    pub fn answers(&mut self, answer: Result<WebAnswer, AllocError>, now: u64) {
        self.caller.answers(answer, now);
    }

    /// Leaves it if it was too slow.
    fn looks_at_clock(&mut self, now: u64)
        ensures { BringsNothing self.old self.new }
    {
        if self.left_at.is_some() {
            return;
        }
        self.caller.looks_at_clock(now);
    }

    /// Sends a piece of what waits, if something does.
    fn sends(&mut self, now: u64)
        ensures { BringsNothing self.old self.new }
    {
        if !self.caller.has_output() {
            return;
        }
        if let Err(error) = send_piece(&mut self.caller, &mut self.stream, now) {
            self.fails(error.kind());
        }
    }

    /// Takes a piece of its request. One that is too long is left.
    fn hears(&mut self, guard: &Guard, now: u64) -> Option<Ask>
        requires { Listens self.old.caller }
        ensures { Attends guard.now self.old self.new result }
    {
        let room = MOST_OCTETS - self.heard;
        if room == 0 {
            self.caller.breaks_off();
            return None;
        }
        let mut buffer = [0u8; MOST_READ];
        let most = room.min(MOST_READ);
        match read_noted(&mut self.stream, &mut buffer[..most], &mut self.came) {
            Ok(len) => {
                self.heard += len;
                hear(&mut self.caller, &buffer[..len], guard, now)
            }
            Err(error) => {
                self.fails(error.kind());
                None
            }
        }
    }

    /// Notifies it that nothing more comes; then discards what comes, for a second at most.
    fn leaves(&mut self, now: u64)
        ensures { BringsNothing self.old self.new }
    {
        match self.left_at {
            None => {
                self.stream.ends();
                self.left_at = Some(now);
            }
            Some(since) if now.saturating_sub(since) >= LEAVING => self.is_over = true,
            Some(_) => self.throws_away(),
        }
    }

    /// Discards what came, until its other end is closed.
    fn throws_away(&mut self)
        ensures { BringsNothing self.old self.new }
    {
        let mut buffer = [0u8; MOST_READ];
        match self.stream.read(&mut buffer) {
            Ok(0) => self.is_over = true,
            Ok(_) => {}
            Err(error) => self.fails(error.kind()),
        }
    }

    /// Notes why nothing was sent or read: it is over, unless it must only wait.
    fn fails(&mut self, kind: ErrorKind)
        ensures { BringsNothing self.old self.new }
    {
        if kind != ErrorKind::WouldBlock && kind != ErrorKind::Interrupted {
            self.caller.breaks_off();
            self.is_over = true;
        }
    }
}

/// Sends a piece of what waits to be sent to a caller.
fn send_piece<S: WebStream>(caller: &mut Caller, stream: &mut S, now: u64) -> io::Result<usize>
    ensures { HearsNothing caller.old caller.new }
{
    let mut piece = Piece(stream);
    caller.sends(&mut piece, now)
}

/// Reads once over a stream, and notes what came.
fn read_noted<S: WebStream>(
    stream: &mut S,
    octets: &mut [u8],
    came: &mut GhostList<u8>,
) -> io::Result<usize>
    ensures bound { IfOk result (λ len. len ≤ length octets.new) }
    ensures read { IfOk result (λ len. Consumes (S.remaining stream.old) (S.remaining stream.new)
        (take len octets.new)) }
    ensures noted { IfOk result (λ len. came.new ≡ came.old ++ take len octets.new) }
    ensures err { OnErr result (came.new ≡ came.old) }
{
    let len = stream.read(octets)?;
    came.put_all(&octets[..len]);
    Ok(len)
}

/// Has a caller hear octets that came. If no more come and nothing is asked, it is left.
fn hear(caller: &mut Caller, octets: &[u8], guard: &Guard, now: u64) -> Option<Ask>
    requires { Listens caller.old }
    ensures heard { Heard guard.now caller.old caller.new result }
    ensures read { Reads caller.old caller.new octets.now }
{
    match caller.hears(octets, guard, now) {
        Some(ask) => Some(ask),
        None => {
            leave_at_end(caller, octets.is_empty());
            None
        }
    }
}

/// Leaves a caller that sends no more octets, unless it is answered.
fn leave_at_end(caller: &mut Caller, is_end: bool)
    ensures { HearsNothing caller.old caller.new }
{
    if is_end && !caller.has_output() {
        caller.breaks_off();
    }
}
