//! A connection of a browser.
use crate::serving::Serving;
use http_server::{Config, Connection};
use http1::Limits;
use libc::net::{POLLIN, POLLOUT};
use std::alloc::Global;
use std::hash::RandomState;
use std::io::{ErrorKind, Read};
use std::net::{Shutdown, TcpStream};
use std::os::fd::{AsRawFd, RawFd};

/// The most octets of a request's body, and so of a script.
const MOST_BODY: usize = 65_536;

/// The most octets that are read over a connection in one turn.
const MOST_READ: usize = 4096;

/// The most milliseconds until its request came, and then until its answer was sent.
const PATIENCE: u64 = 10_000;

/// The most milliseconds in which what comes after the answer is discarded.
const LEAVING: u64 = 1_000;

/// A connection of a browser over TCP, for one request. No call waits. It is left once the answer
/// was sent: the browser is notified that nothing more comes, and what it sends until it is closed
/// at its other end is discarded; if something lay in a socket that is closed, the answer would be
/// lost.
#[derive(Drop)]
pub struct Client {
    stream: TcpStream,
    connection: Connection,
    // Since when its request is waited for, or until its answer was sent, or it is left; in
    // milliseconds, from the next turn on if it is `None`.
    since: Option<u64>,
    is_left: bool,
    is_over: bool,
}

impl Client {
    /// Returns a new connection. The names of its fields are kept under secret keys, since the
    /// browser chooses them.
    pub fn new(alloc: Global, keys: RandomState, stream: TcpStream) -> Client {
        let config = Config {
            limits: Limits::default(),
            max_body_len: MOST_BODY,
            max_pending: 0,
            read_size: MOST_READ,
        };
        Client {
            stream,
            connection: Connection::new(alloc, keys, config),
            since: None,
            is_left: false,
            is_over: false,
        }
    }

    /// Returns `true` if it is over: its stream must be closed.
    pub fn is_over(&self) -> bool {
        self.is_over
    }

    /// Returns its descriptor, and the events of `poll` that it waits for.
    pub fn watched(&self) -> (RawFd, i16) {
        let events = if self.connection.wants_write() {
            POLLOUT
        } else {
            POLLIN
        };
        (self.stream.as_raw_fd(), events)
    }

    /// Does what can be done now: sends a piece, takes a piece, answers, or leaves it.
    pub fn attend(&mut self, serving: &mut Serving<'_>, now: u64) {
        let waited = now.saturating_sub(self.since.unwrap_or(now));
        self.since = Some(now - waited);
        if self.is_left {
            self.throws_away(waited);
            return;
        }
        self.moves();
        let was_answered = self.connection.wants_write();
        self.connection.advance(serving);
        if self.connection.is_done() {
            self.leaves();
        } else if self.connection.wants_write() && !was_answered {
            self.since = None;
        } else if waited >= PATIENCE {
            self.is_over = true;
        }
    }

    /// Sends a piece, or takes one.
    fn moves(&mut self) {
        let moved = if self.connection.wants_write() {
            self.connection.write_to(&mut self.stream)
        } else {
            self.connection.read_from(&mut self.stream)
        };
        if let Err(error) = moved {
            self.fails(error.kind());
        }
    }

    /// Notifies it that nothing more comes.
    fn leaves(&mut self) {
        let _ = self.stream.shutdown(Shutdown::Write);
        self.is_left = true;
        self.since = None;
    }

    /// Discards what came, until its other end is closed, or it was waited for so long.
    fn throws_away(&mut self, waited: u64) {
        let mut buffer = [0u8; MOST_READ];
        match self.stream.read(&mut buffer) {
            Ok(0) => self.is_over = true,
            Ok(_) => {}
            Err(error) => self.fails(error.kind()),
        }
        if waited >= LEAVING {
            self.is_over = true;
        }
    }

    /// Notes why nothing was sent or read: it is over, unless it must only wait.
    fn fails(&mut self, kind: ErrorKind) {
        if kind != ErrorKind::WouldBlock && kind != ErrorKind::Interrupted {
            self.is_over = true;
        }
    }
}
