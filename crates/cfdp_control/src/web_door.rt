//! The console's address: connections of browsers, served in the station's own turn.
ghost use Rattle.std.specs.Prelude.{◌≡◌};
ghost use Rattle.cfdp_console.specs.Serving.{AreKnownOrNew};
ghost use Rattle.cfdp_control.specs.Door.{AsksAtDoor};

use crate::cause::address_cause;
use crate::line_sources::is_passing;
use cfdp_console::{Ask, Guard, Visitors, WebAnswer, WebStream, reply};
use cfdp_exchange::Watched;
use libc::net::{POLLIN, POLLOUT};
use std::alloc::AllocError;
use std::hash::RandomState;
use std::io::{ErrorKind, Read, Write};
use std::net::{Shutdown, TcpListener, TcpStream, ToSocketAddrs};
use std::os::fd::AsRawFd;
use std::random::RandomSource;
use std::{fmt, io};

/// For so many milliseconds no connection is taken after the system refused one.
const AFTER_FAILURE: u64 = 1_000;

/// For so many milliseconds nothing more is done for the console after something that was done. So
/// those who ask without a pause take a small part of the processor's time alone, and the system
/// doesn't let the station wait for its turn.
const PAUSE: u64 = 2;

/// After so many milliseconds it is looked which connections are too slow, also if nothing came.
const BETWEEN_LOOKS: u64 = 100;

/// Why no address of a console can be had.
#[derive(Drop)]
pub enum DoorError {
    /// Others than this machine could reach it, and no token is asked of them.
    WantsToken,
    /// Something stands against it, as that it is in use.
    System(io::Error),
}

impl From<io::Error> for DoorError {
    fn from(error: io::Error) -> DoorError {
        DoorError::System(error)
    }
}

impl From<AllocError> for DoorError {
    fn from(error: AllocError) -> DoorError {
        DoorError::System(io::Error::from(error))
    }
}

impl fmt::Display for DoorError {
    /// One line, without its end.
    fn fmt<W: fmt::Write>(&self, f: &mut fmt::Formatter<W>) -> fmt::Result {
        match self {
            DoorError::WantsToken => f.write_str(
                "not an address of this machine alone, 127.0.0.1 or [::1]: give a token with \
                 --console-token FILE",
            ),
            DoorError::System(error) => f.write_str(address_cause(error.kind())),
        }
    }
}

/// A connection of the console over TCP.
#[derive(Drop)]
struct WebSocket(TcpStream);

impl Read for WebSocket {
    fn read(&mut self, octets: &mut [u8]) -> io::Result<usize> {
        self.0.read(octets)
    }
}

impl Write for WebSocket {
    fn write(&mut self, octets: &[u8]) -> io::Result<usize> {
        self.0.write(octets)
    }

    fn flush(&mut self) -> io::Result<()> {
        self.0.flush()
    }
}

impl WebStream for WebSocket {
    fn ends(&mut self) {
        let _ = self.0.shutdown(Shutdown::Write);
    }
}

/// The console's address, and those who are connected. No call waits, and each does a bounded piece
/// of work.
#[derive(Drop)]
pub struct WebDoor<'a> {
    rt: &'a HostRuntime,
    listener: TcpListener,
    pub(crate) guard: Guard,
    // The token that the page is given; none if whoever looks must know it.
    told_token: Option<String>,
    visitors: Visitors<WebSocket>,
    deaf_until: u64,
    looked_at: u64,
    // Until when nothing more is done.
    rests_until: u64,
}

impl<'a> WebDoor<'a> {
    /// Opens the console at this address. Whoever asks must show this token; without one, anybody
    /// on this machine may look, and its page is given a token of its own. A proxy may ask for this
    /// host, unless it is empty.
    ///
    /// # Errors
    ///
    /// `DoorError` if the address can't be had, or isn't of this machine alone and no token is
    /// given.
    pub fn new(
        rt: &'a HostRuntime,
        address: &str,
        token: Option<String>,
        proxy_host: &str,
    ) -> Result<WebDoor<'a>, DoorError> {
        let listener = listener(rt, address, token.is_some())?;
        let is_open = token.is_none();
        let token = match token {
            Some(token) => token,
            None => new_token(rt)?,
        };
        let kept = Vec::from_slice(rt.alloc(), token.as_bytes())?;
        Ok(WebDoor {
            rt,
            listener,
            guard: Guard {
                token: kept,
                is_open,
                proxy_host: Vec::from_slice(rt.alloc(), proxy_host.as_bytes())?,
            },
            told_token: if is_open { Some(token) } else { None },
            visitors: Visitors::new(rt.alloc()),
            deaf_until: 0,
            looked_at: 0,
            rests_until: 0,
        })
    }

    /// Returns the listener that takes connections.
    pub fn listener(&self) -> &TcpListener {
        &self.listener
    }

    /// Returns the token that the page is given.
    pub fn told_token(&self) -> Option<&str> {
        match &self.told_token {
            Some(token) => Some(token.as_str()),
            None => None,
        }
    }

    /// Takes what a connection asks, with its number: it must be answered. After a call that did
    /// something it is `None` for two milliseconds, so that whoever asks does something else
    /// between.
    pub fn next_ask(&mut self, now: u64) -> Option<(u64, Ask)>
        ensures { AsksAtDoor self.old.guard self.old.visitors.all.items
            self.new.visitors.all.items result }
    {
        if now < self.rests_until || !self.is_stirred(now) {
            return None;
        }
        self.looked_at = now;
        self.rests_until = now.saturating_add(PAUSE);
        self.accepts(now);
        self.visitors.next_ask(&self.guard, now)
    }

    /// Answers a command that was asked: that it was done, or why it wasn't.
    pub fn replies(&mut self, number: u64, outcome: Result<(), &str>, now: u64) {
        let answer = reply(self.rt.alloc(), outcome);
        self.visitors.answers(number, answer, now);
    }

    /// Answers what was asked to be shown.
    pub fn answers(&mut self, number: u64, answer: Result<WebAnswer, AllocError>, now: u64) {
        self.visitors.answers(number, answer, now);
    }

    /// Adds what a wait must look at, so that it ends once something may have come.
    pub fn watches(&self, watched: &mut Watched, now: u64) {
        if now < self.rests_until {
            watched.set_soon();
            return;
        }
        if now >= self.deaf_until {
            watched.watch(self.listener.as_raw_fd(), POLLIN);
        }
        for visitor in self.visitors.all() {
            let wants = visitor.wants();
            let reading = if wants.octets { POLLIN } else { 0 };
            let sending = if wants.room { POLLOUT } else { 0 };
            watched.watch(visitor.stream().0.as_raw_fd(), reading | sending);
            watched.set_due(watched.is_due() || visitor.is_due());
        }
    }

    /// Whether something must be done: something came, or there is room for what waits, or it is
    /// time to look who is too slow.
    fn is_stirred(&self, now: u64) -> bool {
        let mut watched = Watched::nothing();
        self.watches(&mut watched, now);
        watched.is_due()
            || now.saturating_sub(self.looked_at) >= BETWEEN_LOOKS
            || libc::net::poll(&mut watched.alone(), 0) > 0
    }

    /// Takes a connection, if one waits for that. If there is no room for it, the one that was
    /// answered least recently is closed.
    fn accepts(&mut self, now: u64)
        ensures guard { self.new.guard ≡ self.old.guard }
        ensures visitors { AreKnownOrNew self.old.visitors.all.items self.new.visitors.all.items }
    {
        if now < self.deaf_until {
            return;
        }
        match self.listener.accept() {
            Ok((stream, _)) => self.takes_in(stream, now),
            Err(error) => {
                if !is_passing(error.kind()) {
                    self.deaf_until = now.saturating_add(AFTER_FAILURE);
                }
            }
        }
    }

    /// Has one more connection.
    fn takes_in(&mut self, stream: TcpStream, now: u64)
        ensures guard { self.new.guard ≡ self.old.guard }
        ensures visitors { AreKnownOrNew self.old.visitors.all.items self.new.visitors.all.items }
    {
        let Ok(keys) = RandomState::new(self.rt) else {
            return;
        };
        if stream.set_nonblocking(true).is_err() {
            return;
        }
        let _ = stream.set_nodelay(true);
        self.visitors.makes_room();
        self.visitors.takes_in(WebSocket(stream), keys, now);
    }
}

/// A token that nobody knows: 32 hexadecimal digits.
fn new_token(rt: &HostRuntime) -> io::Result<String> {
    let mut octets = [0u8; 16];
    rt.fill_bytes(&mut octets)?;
    Ok(format!(in rt.alloc(); "{:032x}", u128::from_le_bytes(octets))?)
}

/// What takes connections at this address: one of this machine alone if no token is asked for.
fn listener(rt: &HostRuntime, address: &str, has_token: bool) -> Result<TcpListener, DoorError> {
    let Some(address) = address.to_socket_addrs(rt)?.next() else {
        return Err(DoorError::System(io::Error::from(ErrorKind::AddrNotAvailable)));
    };
    if !has_token && !address.ip().is_loopback() {
        return Err(DoorError::WantsToken);
    }
    let listener = TcpListener::bind(rt, address)?;
    listener.set_nonblocking(true)?;
    Ok(listener)
}
