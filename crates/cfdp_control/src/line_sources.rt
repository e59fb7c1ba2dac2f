//! Where commands come from: lines, and the console.
use crate::cause::{address_cause, is_malformed};
use crate::connection::Connection;
use crate::line::{LineFault, Speaker};
use crate::standard_input::StandardInput;
use crate::stream::{Listener, Stream, socket_path, unix_listener};
use crate::web_door::WebDoor;
use cfdp_console::{Ask, WebAnswer};
use cfdp_exchange::Watched;
use cfdp_report::cause_text;
use libc::net::POLLIN;
use std::alloc::AllocError;
use std::io::ErrorKind;
use std::net::{SocketAddr, TcpListener, ToSocketAddrs};
use std::time::Instant;
use std::{fmt, io};

/// The most connections that may send lines.
const MOST_OPEN: usize = 8;

/// The most connections, with those that are only answered that there are enough, or that end.
const MOST_CONNECTIONS: usize = 12;

/// The most lines that are taken in a row, so that whoever takes them does something else between.
const MOST_LINES: u32 = 16;

/// For so many milliseconds no connection is taken after the system refused one, as if it has
/// no more descriptors.
const AFTER_FAILURE: u64 = 1_000;

/// A connection that has sent no whole line for so many milliseconds gives way to another one.
const IDLE: u64 = 1_000;

/// What a connection is answered that is one too many, if none is idle.
const TOO_MANY: &str = "error: too many connections: 8 are open\n\n";

/// What a connection is answered that gives way.
const GIVES_WAY: &str =
    "error: closed: of 8 connections this one was idle the longest, and a new one arrived\n\n";

/// Why no control address can be had.
#[derive(Drop)]
pub enum ControlError {
    /// Others than this machine could reach it, and whoever reaches it commands the station.
    NotLoopback,
    /// No Unix socket can be had at the path.
    Socket(io::Error),
    /// Something stands against it, as that it is in use.
    System(io::Error),
}

impl ControlError {
    /// Returns `true` if no address is written so: it is a mistake of whoever gave it.
    pub fn is_mistake(&self) -> bool {
        match self {
            ControlError::NotLoopback | ControlError::Socket(_) => false,
            ControlError::System(error) => is_malformed(error.kind()),
        }
    }
}

impl From<io::Error> for ControlError {
    fn from(error: io::Error) -> ControlError {
        ControlError::System(error)
    }
}

impl From<AllocError> for ControlError {
    fn from(error: AllocError) -> ControlError {
        ControlError::System(io::Error::from(error))
    }
}

impl fmt::Display for ControlError {
    /// One line, without its end.
    fn fmt<W: fmt::Write>(&self, f: &mut fmt::Formatter<W>) -> fmt::Result {
        match self {
            ControlError::NotLoopback => f.write_str(
                "must be an address of this machine alone, 127.0.0.1 or [::1], since whoever \
                 reaches it commands the station",
            ),
            ControlError::Socket(error) => f.write_str(cause_text(error.kind())),
            ControlError::System(error) => f.write_str(address_cause(error.kind())),
        }
    }
}

/// Where commands come from: lines of standard input, and of connections to a control address; and
/// the console. No call waits.
#[derive(Drop)]
pub struct LineSources<'a> {
    rt: &'a HostRuntime,
    start: Option<Instant>,
    standard: Option<StandardInput>,
    listener: Option<Listener>,
    connections: Vec<Connection>,
    door: Option<WebDoor<'a>>,
    // How many connections there were so far, and until when none is taken.
    numbered: u64,
    deaf_until: u64,
    // Whose turn it is, and how many lines were taken in a row.
    turn: usize,
    taken: u32,
}

impl<'a> LineSources<'a> {
    /// Opens the sources: standard input if it is asked for, a control address if one is given, and
    /// a console if there is one. It must be called before other files are opened: a process that
    /// was given no standard input has none then.
    ///
    /// # Errors
    ///
    /// `ControlError` if the control address can't be had.
    pub fn new(
        rt: &'a HostRuntime,
        is_standard: bool,
        control: Option<&str>,
        door: Option<WebDoor<'a>>,
    ) -> Result<LineSources<'a>, ControlError> {
        let alloc = rt.alloc();
        let standard = is_standard.then(|| StandardInput::new(alloc));
        let listener = match control {
            Some(address) => Some(listener(rt, address)?),
            None => None,
        };
        Ok(LineSources {
            rt,
            start: Instant::now(rt).ok(),
            standard,
            listener,
            connections: Vec::with_capacity(alloc, MOST_CONNECTIONS)?,
            door,
            numbered: 0,
            deaf_until: 0,
            turn: 0,
            taken: 0,
        })
    }

    /// Returns the control address, with its port; `None` if there is none, or it is a Unix socket.
    pub fn control_address(&self) -> Option<SocketAddr> {
        match &self.listener {
            Some(listener) => listener.tcp_address(),
            None => None,
        }
    }

    /// Returns the console, if there is one.
    pub fn door(&self) -> Option<&WebDoor<'a>> {
        self.door.as_ref()
    }

    /// Takes what the console is asked next, and by whom: it must be answered. After one it is
    /// `None` for two milliseconds, so that whoever asks does something else between.
    pub fn next_ask(&mut self) -> Option<(Speaker, Ask)> {
        let now = self.now();
        let (number, ask) = self.door.as_mut()?.next_ask(now)?;
        Some((Speaker::Web(number), ask))
    }

    /// Shows what was asked for at the console.
    pub fn shows(&mut self, to: Speaker, answer: Result<WebAnswer, AllocError>) {
        let now = self.now();
        if let Speaker::Web(number) = to
            && let Some(door) = &mut self.door
        {
            door.answers(number, answer, now);
        }
    }

    /// Takes the next line, without its line feed, and who sent it: it must be answered, also if it
    /// is none. Lines are taken in turn from all that send some. After 16 lines in a row, and if
    /// none is there, it is `None`: whoever takes lines until then does something else between.
    pub fn next_line(&mut self) -> Option<(Speaker, Result<String, LineFault>)> {
        if self.taken == 0 {
            self.attend();
        }
        let next = if self.taken < MOST_LINES {
            self.takes_one()
        } else {
            None
        };
        self.taken = match next {
            Some(_) => self.taken.saturating_add(1),
            None => 0,
        };
        next
    }

    /// Answers a line that was taken: with these lines, and `ok` after them. For standard input it
    /// gives back what the caller must write to standard output.
    ///
    /// Each of the lines has its line feed, none of them is empty, and the first doesn't begin with
    /// `error: `.
    pub fn done(&mut self, to: Speaker, lines: &str) -> Option<String> {
        if let Speaker::Web(number) = to {
            self.replies(number, Ok(()));
            return None;
        }
        let text = format!(in self.rt.alloc(); "{lines}ok\n");
        self.answered(to, text)
    }

    /// Answers a line that was taken: with why nothing was done, in one line, without its end. For
    /// standard input it gives back what the caller must write to standard output.
    pub fn refused<D: fmt::Display>(&mut self, to: Speaker, why: &D) -> Option<String> {
        let alloc = self.rt.alloc();
        if let Speaker::Web(number) = to {
            let why = format!(in alloc; "{why}").unwrap_or_else(|_| String::new(alloc));
            self.replies(number, Err(why.as_str()));
            return None;
        }
        let text = format!(in alloc; "error: {why}\n");
        self.answered(to, text)
    }

    /// Answers a command of the console.
    fn replies(&mut self, number: u64, outcome: Result<(), &str>) {
        let now = self.now();
        if let Some(door) = &mut self.door {
            door.replies(number, outcome, now);
        }
    }

    /// Sends an answer, with an empty line after it, to a connection; gives back that to standard
    /// input. To a connection that has gone nothing is said. One for which there is no memory goes.
    fn answered(&mut self, to: Speaker, text: Result<String, AllocError>) -> Option<String> {
        let number = match to {
            Speaker::Standard => return text.ok(),
            Speaker::Connection(number) => number,
            Speaker::Web(_) => return None,
        };
        let now = self.now();
        let mut text = text.unwrap_or_else(|_| String::new(self.rt.alloc()));
        let is_whole = !text.is_empty() && text.push('\n').is_ok();
        for connection in self.connections.iter_mut() {
            if connection.number() == number {
                if is_whole {
                    connection.answer(text.as_str(), now);
                } else {
                    connection.breaks_off();
                }
            }
        }
        None
    }

    /// Returns what a wait must look at, so that it ends once a line may have come. It stays so
    /// until the next line is asked for.
    pub fn watched(&self) -> Watched {
        let mut watched = self.watched_lines();
        if let Some(door) = &self.door {
            door.watches(&mut watched, self.now());
        }
        watched
    }

    /// Returns what a wait for lines alone must look at.
    fn watched_lines(&self) -> Watched {
        let mut watched = Watched::nothing();
        if let Some(standard) = &self.standard {
            let (fd, events) = standard.watched();
            watched.watch(fd, events);
            watched.set_due(standard.has_line());
        }
        if let Some(listener) = &self.listener
            && self.hears(self.now())
        {
            watched.watch(listener.fd(), POLLIN);
        }
        for connection in self.connections.iter() {
            let (fd, events) = connection.watched();
            watched.watch(fd, events);
            watched.set_due(watched.is_due() || connection.has_line());
        }
        watched
    }

    /// Returns the milliseconds since the start; 0 if the clock can't be read.
    pub fn now(&self) -> u64 {
        match &self.start {
            Some(start) => match start.elapsed(self.rt) {
                Ok(since) => u64::try_from(since.as_millis()).unwrap_or(u64::MAX),
                Err(_) => 0,
            },
            None => 0,
        }
    }

    /// Whether one more connection may be taken.
    fn hears(&self, now: u64) -> bool {
        now >= self.deaf_until && self.connections.len() < MOST_CONNECTIONS
    }

    /// Reads, sends and takes connections, as far as that can be done without waiting.
    fn attend(&mut self) {
        let watched = self.watched_lines();
        if watched.is_empty() && self.connections.is_empty() {
            return;
        }
        let now = self.now();
        let mut places = watched.alone();
        let stirred = libc::net::poll(&mut places, 0);
        if let Some(standard) = &mut self.standard
            && stirred > 0
            && StandardInput::is_ready(&places)
        {
            standard.reads(self.rt);
        }
        if stirred > 0 {
            self.accepts(now);
        }
        for connection in self.connections.iter_mut() {
            connection.attend(now, stirred > 0);
        }
        self.connections.retain(|connection| !connection.is_gone());
    }

    /// Takes a connection, if one waits for that.
    fn accepts(&mut self, now: u64) {
        let Some(listener) = &self.listener else {
            return;
        };
        if !self.hears(now) {
            return;
        }
        match listener.accept() {
            Ok(stream) => self.takes_in(stream, now),
            Err(error) => {
                if !is_passing(error.kind()) {
                    self.deaf_until = now.saturating_add(AFTER_FAILURE);
                }
            }
        }
    }

    /// Has one more connection. If eight may send lines already, the one of them that is idle the
    /// longest is closed, with a line that says so; if none is idle for a second, the new one is.
    fn takes_in(&mut self, stream: Stream, now: u64) {
        if stream.never_waits().is_err() {
            return;
        }
        self.numbered = self.numbered.saturating_add(1);
        let mut connection = Connection::new(self.rt.alloc(), self.numbered, stream, now);
        if self.open_count() >= MOST_OPEN && !self.closes_idle(now) {
            connection.refuse(TOO_MANY, now);
        }
        let _ = self.connections.push(connection);
    }

    /// How many connections may send lines.
    fn open_count(&self) -> usize {
        self.connections.iter().filter(|it| it.is_open()).count()
    }

    /// Closes the connection that is idle the longest, if one is for a second.
    fn closes_idle(&mut self, now: u64) -> bool {
        let mut idle = [None; MOST_CONNECTIONS];
        for (place, connection) in self.connections.iter().take(MOST_CONNECTIONS).enumerate() {
            idle[place] = connection.idle_since();
        }
        let Some(place) = longest_idle(&idle, now.saturating_sub(IDLE)) else {
            return false;
        };
        match self.connections.get_mut(place) {
            Some(connection) => {
                connection.gives_way(GIVES_WAY);
                true
            }
            None => false,
        }
    }

    /// Takes a line of the source whose turn it is, or of the next one that has some.
    fn takes_one(&mut self) -> Option<(Speaker, Result<String, LineFault>)> {
        let sources = self.connections.len().saturating_add(1);
        for step in 0..sources {
            let place = (self.turn % sources).saturating_add(step) % sources;
            let line = self.takes_from(place);
            if line.is_some() {
                self.turn = place.saturating_add(1);
                return line;
            }
        }
        None
    }

    /// Takes a line of one source: standard input is the first of them.
    fn takes_from(&mut self, place: usize) -> Option<(Speaker, Result<String, LineFault>)> {
        if place == 0 {
            let line = self.standard.as_mut()?.next_line()?;
            return Some((Speaker::Standard, line));
        }
        let connection = self.connections.get_mut(place.saturating_sub(1))?;
        let line = connection.next_line()?;
        Some((Speaker::Connection(connection.number()), line))
    }
}

/// Returns which of them has been idle the longest, by the times since when each is, if that is by
/// this time at the latest.
fn longest_idle(since: &[Option<u64>], latest: u64) -> Option<usize> {
    let mut found = None;
    let mut least = latest;
    for (place, time) in since.iter().enumerate() {
        if let Some(time) = *time
            && (time < least || time == least && found.is_none())
        {
            least = time;
            found = Some(place);
        }
    }
    found
}

/// Returns `true` if a connection that wasn't taken for this cause says nothing of the next one.
pub(crate) fn is_passing(kind: ErrorKind) -> bool {
    matches!(
        kind,
        ErrorKind::WouldBlock | ErrorKind::Interrupted | ErrorKind::ConnectionAborted
    )
}

/// What takes connections at an address of this machine alone, or at a Unix socket.
fn listener(rt: &HostRuntime, address: &str) -> Result<Listener, ControlError> {
    if let Some(path) = socket_path(address) {
        return unix_listener(rt, path).map_err(ControlError::Socket);
    }
    let Some(address) = address.to_socket_addrs(rt)?.next() else {
        return Err(ControlError::System(io::Error::from(ErrorKind::AddrNotAvailable)));
    };
    if !address.ip().is_loopback() {
        return Err(ControlError::NotLoopback);
    }
    let listener = TcpListener::bind(rt, address)?;
    listener.set_nonblocking(true)?;
    Ok(Listener::Tcp(listener))
}
