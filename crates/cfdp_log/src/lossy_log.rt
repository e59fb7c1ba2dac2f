//! A log over standard output that loses lines if standard output takes none.
ghost use Rattle.std.specs.Prelude.{◌≡◌, ◌++◌, ◌∷◌, [], List, ℕ, IfOk, IsTrue, OnOk};
ghost use Rattle.std.specs.Prelude.{codes, decimal};
ghost use Rattle.cfdp_console.specs.LastLines.{HasNoEnd};
ghost use Rattle.cfdp_log.specs.Lossy.{HasLogged, KeepsMore, SaysLost};
ghost use Rattle.cfdp_log.specs.Queue.{StaysLogged};

use crate::line_queue::LineQueue;
use crate::station_log::json::{begin_object, end_object};
use crate::station_log::line::{LINE_ROOM, add_time};
use crate::station_log::style::{Log, Style};
use cfdp_exchange::Watched;
use cfdp_report::cut_at_first;
use ghost_list::GhostList;
use libc::net::{POLLERR, POLLNVAL, POLLOUT};
use libc::types::pollfd;
use std::alloc::AllocError;
use std::fs::{File, OpenOptions};
use std::io;
use std::io::{ErrorKind, Write};
use std::marker::Model;
use std::os::fd::{AsRawFd, RawFd};
use std::time::Instant;

/// The descriptor of standard output.
const STANDARD_OUTPUT: RawFd = 1;

/// The most octets of a line, as many as may wait.
const MOST_LINE: usize = 65_536;

/// If more octets wait, they are written in the midst of a turn.
const MANY: usize = 8192;

/// The most octets that are written at once: a pipe that is ready takes so many without a wait
/// (POSIX, `PIPE_BUF`).
const MOST_PIECE: usize = 4096;

/// What standard output is, to be opened once more.
const OUTPUT_PATH: &str = "/proc/self/fd/1";

/// The most pieces that are written in a row: more than there are in what may wait.
const MOST_PIECES: u32 = 1024;

/// For so many milliseconds in all it is waited for a reader, from one time at which nothing waits
/// to the next one, before a line is lost.
const PATIENCE: u64 = 250;

/// At the end it is waited so many milliseconds for a reader that reads nothing.
const LAST_PATIENCE: i32 = 2_000;

/// After so many milliseconds a write that failed is tried again.
const AFTER_FAILURE: u128 = 1_000;

/// A log over standard output, which is never waited for long. Whole lines wait if it takes
/// none, as a pipe that nobody reads or a full disk; those for which there is no room any more are
/// lost, and counted. Once what waited is written, a line says how many were lost there.
#[derive(Drop)]
pub struct LossyLog<'a> {
    log: Log<'a>,
    queue: LineQueue,
    // The beginning of a line, and whether all of it was kept.
    begun: Vec<u8>,
    is_whole: bool,
    // The terminal that standard output is.
    terminal: Option<File>,
    // For how many milliseconds it may still be waited, and when a write failed last.
    patience: u64,
    failed_at: Option<Instant>,
    // All octets that came. Only clauses see them.
    came: GhostList<u8>,
}

impl<'a> Model for LossyLog<'a> {
    ghost use Rattle.cfdp_log.specs.Lossy.{LogsLines, LossyState};

    ghost Value = { LossyState };

    ghost view = { λ l. record { came = l.came; queue = l.queue } };

    ghost invariant = { λ l. LogsLines l.came l.queue l.is_whole l.begun.items };
}

impl<'a> LossyLog<'a> {
    /// Returns a log to which nothing is written yet, with memory for all that may wait.
    ///
    /// # Errors
    ///
    /// `AllocError` if there is no memory.
    pub fn new(log: Log<'a>) -> Result<LossyLog<'a>, AllocError>
        ensures { IfOk result (λ log. log.came ≡ []) }
    {
        let alloc = log.rt.alloc();
        Ok(LossyLog {
            log,
            queue: LineQueue::new(alloc)?,
            begun: Vec::with_capacity(alloc, LINE_ROOM)?,
            is_whole: true,
            terminal: terminal(log.rt),
            patience: PATIENCE,
            failed_at: None,
            came: GhostList::new(),
        })
    }

    /// Adds what a wait must look at, so that it ends once standard output takes more. After a
    /// failure it is tried each second instead.
    pub fn watches(&self, watched: &mut Watched) {
        if !self.queue.is_empty() && self.failed_at.is_none() {
            watched.watch(STANDARD_OUTPUT, POLLOUT);
        }
    }

    /// Writes what waits, for the last time: a reader that reads nothing is waited for, two seconds
    /// at most. Returns `true` if all of the last lines were written.
    pub fn finish(&mut self) -> bool
        ensures came { self.new.came ≡ self.old.came }
        ensures logged { HasLogged self.new }
        ensures all { IsTrue result → (self.old.queue.lost ≡ 0) × (self.new.queue.waits ≡ []) }
    {
        let is_kept = self.queue.lost() == 0;
        self.failed_at = None;
        self.writes_out(LAST_PATIENCE);
        is_kept && self.queue.is_empty()
    }

    /// Adds to the line that is begun.
    fn begins(&mut self, octets: &[u8])
        requires { HasNoEnd octets.now }
        ensures { self.new.came ≡ self.old.came ++ octets.now }
    {
        self.is_whole = keeps(&mut self.begun, self.is_whole, octets);
        self.came.put_all(octets);
    }

    /// Has the line wait that is begun, and is at its end.
    fn ends_line(&mut self)
        ensures { self.new.came ≡ self.old.came ++ 10 ∷ [] }
    {
        self.makes_room();
        let is_whole = keeps(&mut self.begun, self.is_whole, b"\n");
        self.queue.take(self.begun.as_slice(), is_whole);
        self.came.put(&b'\n');
        self.begun.clear();
        self.is_whole = true;
    }

    /// Has room for the line that is begun, if it can be kept, and standard output takes enough of
    /// what waits in time.
    fn makes_room(&mut self)
        ensures { self.new.came ≡ self.old.came }
    {
        let len = self.begun.len().saturating_add(1);
        let is_kept = self.is_whole && len <= MOST_LINE;
        if !is_kept || self.queue.len().saturating_add(len) <= MANY {
            return;
        }
        self.writes_out(0);
        for _piece in 0..MOST_PIECES {
            if self.queue.has_room(len) || !self.waits() {
                break;
            }
        }
    }

    /// Writes what standard output takes, for which it waits so many milliseconds at most before
    /// each piece.
    fn writes_out(&mut self, milliseconds: i32)
        ensures { self.new.came ≡ self.old.came }
    {
        for _piece in 0..MOST_PIECES {
            if !self.writes_piece(milliseconds) {
                break;
            }
        }
    }

    /// Waits for standard output, as long as there is patience left, and writes a piece. Returns
    /// `false` if none was written.
    fn waits(&mut self) -> bool
        ensures { self.new.came ≡ self.old.came }
    {
        let began = Instant::now(self.log.rt).ok();
        let is_written = self.writes_piece(i32::try_from(self.patience).unwrap_or(0));
        let waited = milliseconds_since(self.log, began).unwrap_or(u128::MAX);
        let waited = u64::try_from(waited).unwrap_or(u64::MAX);
        self.patience = self.patience.saturating_sub(waited);
        is_written
    }

    /// Writes a piece of what waits, once standard output takes it, for which it waits so many
    /// milliseconds at most. Returns `false` if none was written.
    fn writes_piece(&mut self, milliseconds: i32) -> bool
        ensures { self.new.came ≡ self.old.came }
    {
        if self.queue.is_empty() {
            self.patience = PATIENCE;
            self.tells_lost();
        }
        if self.queue.is_empty() || self.rests() {
            return false;
        }
        match output_within(milliseconds) {
            Readiness::Ready => self.writes(),
            Readiness::Full => false,
            Readiness::Broken => {
                self.fails();
                false
            }
        }
    }

    /// Writes a piece of what waits. Returns `false` if none was written.
    fn writes(&mut self) -> bool
        ensures { self.new.came ≡ self.old.came }
    {
        match write_piece(self.log, &mut self.queue, &mut self.terminal) {
            Ok(0) => {
                self.fails();
                false
            }
            Ok(_) => {
                self.failed_at = None;
                true
            }
            Err(error) => {
                if !is_passing(error.kind()) {
                    self.fails();
                }
                false
            }
        }
    }

    /// Notes that a write failed.
    fn fails(&mut self)
        ensures { self.new.came ≡ self.old.came }
    {
        self.failed_at = Instant::now(self.log.rt).ok();
    }

    /// Whether a write failed within a second, so that none is tried.
    fn rests(&self) -> bool {
        match milliseconds_since(self.log, self.failed_at) {
            Some(since) => since < AFTER_FAILURE,
            None => false,
        }
    }

    /// Has a line wait that says how many lines were lost, if some were and there is memory for
    /// it.
    fn tells_lost(&mut self)
        ensures { self.new.came ≡ self.old.came }
    {
        let lost = self.queue.lost();
        if lost == 0 || !self.queue.is_empty() {
            return;
        }
        let mut line = Vec::new(self.log.rt.alloc());
        if make_lost(&mut line, self.log, lost).is_ok() && line.len() <= MOST_LINE {
            self.queue.tell_lost(line.as_slice());
        }
    }
}

impl Write for LossyLog<'_> {
    ghost use Rattle.std.specs.Prelude.{Some};

    ghost contents = { λ log. Some log.came };

    /// Takes octets up to the end of the first line among them. It never fails: what there is no
    /// room for is lost.
    fn write(&mut self, octets: &[u8]) -> io::Result<usize> {
        let (line, rest) = cut_at_first(octets, b'\n');
        self.begins(line);
        if rest.is_none() {
            return Ok(octets.len());
        }
        self.ends_line();
        Ok(line.len() + 1)
    }

    /// Writes what standard output takes without a wait. It never fails.
    fn flush(&mut self) -> io::Result<()> {
        self.writes_out(0);
        Ok(())
    }
}

/// Adds to the beginning of a line, if all of that was kept. Returns `false` if the line is too
/// long, there is no memory for it, or a part of it was lost before.
fn keeps(begun: &mut Vec<u8>, is_whole: bool, octets: &[u8]) -> bool
    ensures { IsTrue result → KeepsMore is_whole octets.now begun.old.items begun.new.items }
{
    let len = begun.len().saturating_add(octets.len());
    is_whole && len <= MOST_LINE && begun.extend_from_slice(octets).is_ok()
}

/// Writes a piece of what waits to the terminal that standard output is, if it is one, or to
/// standard output.
fn write_piece(
    log: Log<'_>,
    queue: &mut LineQueue,
    terminal: &mut Option<File>,
) -> io::Result<usize>
    ensures { StaysLogged queue.old queue.new }
{
    match terminal {
        Some(terminal) => queue.write_first(terminal, MOST_PIECE),
        None => {
            let mut out = io::writer(log.rt);
            queue.write_first(&mut out, MOST_PIECE)
        }
    }
}

/// The terminal that standard output is, opened once more so that no write to it waits: one that
/// is ready may have room for less than is written, and those who share it may want to wait. `None`
/// if it is none, or can't be opened.
fn terminal(rt: &HostRuntime) -> Option<File> {
    if libc::isatty(STANDARD_OUTPUT) != 1 {
        return None;
    }
    let terminal = OpenOptions::new().write(true).open(rt, OUTPUT_PATH).ok()?;
    if os::set_nonblocking(terminal.as_raw_fd(), true) < 0 {
        return None;
    }
    Some(terminal)
}

/// Whether standard output takes something.
#[derive(Clone, Copy)]
enum Readiness {
    Ready,
    /// It takes nothing now.
    Full,
    /// It takes nothing any more, as a pipe that nobody has open for reading: a write would end the
    /// process.
    Broken,
}

/// Waits for standard output, so many milliseconds at most.
fn output_within(milliseconds: i32) -> Readiness {
    let mut asked = [pollfd {
        fd: STANDARD_OUTPUT,
        events: POLLOUT,
        revents: 0,
    }];
    if libc::net::poll(&mut asked, milliseconds) <= 0 {
        Readiness::Full
    } else if asked[0].revents & (POLLERR | POLLNVAL) != 0 {
        Readiness::Broken
    } else {
        Readiness::Ready
    }
}

/// Whether a write that failed for this cause may be tried again at once.
fn is_passing(kind: ErrorKind) -> bool {
    matches!(kind, ErrorKind::WouldBlock | ErrorKind::Interrupted)
}

/// The milliseconds since then; `None` if that isn't known.
fn milliseconds_since(log: Log<'_>, then: Option<Instant>) -> Option<u128> {
    Some(then?.elapsed(log.rt).ok()?.as_millis())
}

/// Makes the line that says how many lines were lost.
fn make_lost(line: &mut Vec<u8>, log: Log<'_>, lost: u64) -> io::Result<()>
    ensures { OnOk result (SaysLost lost line.new.items) }
{
    match log.style {
        Style::Json { .. } => {
            begin_object(line, log, "lost")?;
            write!(line, ",\"lines\":{lost}")?;
            end_object(line)
        }
        Style::Plain | Style::Text => {
            add_time(line, log)?;
            writeln!(line, "{lost} lines of the log were lost")
        }
    }
}
