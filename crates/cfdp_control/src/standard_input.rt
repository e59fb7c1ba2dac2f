//! Lines of standard input.
ghost use Rattle.std.specs.Prelude.{IfNone};
ghost use Rattle.cfdp_console.specs.LastLines.{HasNoEnd};
ghost use Rattle.cfdp_control.specs.Lines.{Gives, waiting_in};

use crate::line::LineFault;
use crate::line_buffer::LineBuffer;
use libc::net::{POLLIN, POLLNVAL};
use libc::types::pollfd;
use std::alloc::Global;
use std::io::{ErrorKind, Read};
use std::os::fd::RawFd;

/// The descriptor of standard input.
const STANDARD_INPUT: RawFd = 0;

/// The octets that are read at once, at most.
const MOST_READ: usize = 512;

/// Standard input, which is read only if that doesn't wait. Its end is no command.
#[derive(Drop)]
pub struct StandardInput {
    lines: LineBuffer,
    is_terminal: bool,
    is_ended: bool,
}

impl StandardInput {
    /// Returns the source before anything is read. If the process was given no standard input it is
    /// at its end; so this must be called before another file is opened, which may get its number.
    pub fn new(alloc: Global) -> StandardInput {
        let mut asked = [pollfd {
            fd: STANDARD_INPUT,
            events: POLLIN,
            revents: 0,
        }];
        let is_open = libc::net::poll(&mut asked, 0) >= 0 && asked[0].revents & POLLNVAL == 0;
        StandardInput {
            lines: LineBuffer::new(alloc),
            is_terminal: libc::isatty(STANDARD_INPUT) == 1,
            is_ended: !is_open,
        }
    }

    /// Returns its descriptor, and the events to wait for: none if nothing more is read now. A
    /// terminal isn't read while the process is in its background, since it would be stopped for
    /// that.
    pub fn watched(&self) -> (RawFd, i16) {
        let is_read = !self.is_ended && !self.lines.has_line() && !self.is_in_background();
        (STANDARD_INPUT, if is_read { POLLIN } else { 0 })
    }

    /// Whether it is a terminal in whose background the process is.
    fn is_in_background(&self) -> bool {
        self.is_terminal && libc::tcgetpgrp(STANDARD_INPUT) != libc::getpgrp()
    }

    /// Returns `true` if a line lies here that wasn't taken.
    pub fn has_line(&self) -> bool {
        self.lines.has_line()
    }

    /// Returns `true` if `poll` said in one of these places that something can be read.
    pub fn is_ready(places: &[pollfd]) -> bool {
        places
            .iter()
            .any(|place| place.fd == STANDARD_INPUT && place.revents != 0)
    }

    /// Reads what is there, if `poll` said that something is.
    pub fn reads(&mut self, rt: &HostRuntime) {
        let mut buffer = [0u8; MOST_READ];
        let room = self.lines.room().min(MOST_READ);
        if self.is_ended || room == 0 {
            return;
        }
        match rt.stdin().read(&mut buffer[..room]) {
            Ok(0) => self.is_ended = true,
            Ok(len) => self.is_ended = self.lines.add(&buffer[..len]).is_err(),
            Err(error) => self.is_ended = !is_passing(error.kind()),
        }
    }

    /// Takes the next line, if one is whole.
    pub fn next_line(&mut self) -> Option<Result<String, LineFault>>
        ensures given { Gives self.old.lines result self.new.lines }
        ensures none { IfNone result (HasNoEnd (waiting_in self.old.lines)) }
    {
        self.lines.next_text()
    }
}

/// Whether there may be more to read after a read that failed for this cause.
fn is_passing(kind: ErrorKind) -> bool {
    matches!(kind, ErrorKind::WouldBlock | ErrorKind::Interrupted)
}
