//! The last lines of a log.
ghost use Rattle.std.specs.Prelude.{◌≡◌, ◌<◌, ◌^◌, ◌∷◌, ◌++◌, [], IsFalse, IsTrue, IfOk};
ghost use Rattle.std.specs.Prelude.{length, string_bytes};
ghost use Rattle.cfdp_console.specs.LastLines.{IsTold, KeepsOctet, ShowsLast, ShowsNext};
ghost use Rattle.cfdp_console.specs.LastLines.{ShowsOrLeaves};

use ghost_list::GhostList;
use std::alloc::{AllocError, Global};
use std::collections::VecDeque;
use std::marker::Model;

/// So many lines are kept.
pub const MOST_LINES: usize = 1000;

/// The longest line that is kept whole, in octets.
const LONGEST: usize = 4096;

/// A line of a log.
#[derive(Drop)]
pub struct LogLine {
    /// The first one since the start is 1.
    pub number: u64,
    pub text: String,
}

/// The last lines that were shown.
#[derive(Drop)]
struct LastLines {
    lines: VecDeque<LogLine>,
    // All that were shown, and the numbers of those that were left out. Only clauses see them.
    shown: GhostList<LogLine>,
    left_out: GhostList<u64>,
}

impl Model for LastLines {
    ghost use Rattle.std.specs.Prelude.{◌≡◌};
    ghost use Rattle.cfdp_console.specs.LastLines.{LastState, last_of};

    ghost Value = { LastState };

    ghost view = { λ l. record {
      shown = l.shown;
      lines = l.lines.items;
      left_out = l.left_out;
    } };

    ghost invariant = { λ l. l.lines.items ≡ last_of l.shown };
}

impl LastLines {
    fn new(alloc: Global) -> LastLines
        ensures shown { result.shown ≡ [] }
        ensures left_out { result.left_out ≡ [] }
    {
        LastLines {
            lines: VecDeque::new(alloc),
            shown: GhostList::new(),
            left_out: GhostList::new(),
        }
    }

    /// Takes a line of this number and these octets. It is left out if there is no memory for it,
    /// or was none for all its octets.
    fn takes(&mut self, alloc: Global, number: u64, octets: &[u8], has_all: bool)
        ensures { ShowsOrLeaves number octets.now has_all self.old self.new }
    {
        if !has_all || !self.shows(alloc, number, octets) {
            self.left_out.put(&number);
        }
    }

    /// Shows a line. Returns `false` if there is no memory for it.
    fn shows(&mut self, alloc: Global, number: u64, octets: &[u8]) -> bool
        ensures shown { IsTrue result → ShowsNext number octets.now self.old.shown self.new.shown }
        ensures none { IsFalse result → self.new.shown ≡ self.old.shown }
        ensures left_out { self.new.left_out ≡ self.old.left_out }
    {
        let Ok(text) = text_of(alloc, octets) else {
            return false;
        };
        if self.lines.reserve(1).is_err() {
            return false;
        }
        let line = LogLine { number, text };
        self.shown.put(&line);
        if self.lines.len() >= MOST_LINES {
            let _ = self.lines.pop_front();
        }
        self.lines.push_back_reserved(line);
        true
    }
}

/// The last lines of a log. If there is no memory for one, it is left out.
#[derive(Drop)]
pub struct LogLines {
    alloc: Global,
    last: LastLines,
    // The beginning of the line that has no end yet, and whether there was memory for it.
    begun: Vec<u8>,
    has_all: bool,
    count: u64,
    // All octets of the log. Only clauses see them.
    came: GhostList<u8>,
}

impl Model for LogLines {
    ghost use Rattle.std.specs.Prelude.{◌<◌, ◌^◌, length};
    ghost use Rattle.cfdp_console.specs.LastLines.{HasBegun, LinesState, ShowsLines};

    ghost Value = { LinesState };

    ghost view = { λ l. record { came = l.came; count = l.count; lines = l.last.lines } };

    ghost invariant = { λ l. length l.came < 2 ^ 64
        → HasBegun l.came l.count l.has_all l.begun.items
        × ShowsLines l.came l.count l.last.shown l.last.left_out };
}

impl LogLines {
    /// Returns an empty list, before the first line.
    pub fn new(alloc: Global) -> LogLines
        ensures { result.came ≡ [] }
    {
        LogLines {
            alloc,
            last: LastLines::new(alloc),
            begun: Vec::new(alloc),
            has_all: true,
            count: 0,
            came: GhostList::new(),
        }
    }

    /// Returns the lines, the first one first.
    pub fn lines(&self) -> &VecDeque<LogLine>
        ensures lines { result.now.items ≡ self.now.lines }
        ensures last { length self.now.came < 2 ^ 64 → ShowsLast self.now }
    {
        &self.last.lines
    }

    /// Returns the number of the last line; 0 if there is none.
    pub fn count(&self) -> u64
        ensures { result ≡ self.now.count }
    {
        self.count
    }

    /// Adds what is written to the log next.
    pub fn adds(&mut self, octets: &[u8])
        ensures { self.new.came ≡ self.old.came ++ octets.now }
    {
        for octet in octets {
            self.takes(*octet);
        }
    }

    /// Adds an octet.
    fn takes(&mut self, octet: u8)
        ensures { self.new.came ≡ self.old.came ++ octet ∷ [] }
    {
        if octet == b'\n' {
            self.ends_line();
            return;
        }
        self.has_all = keeps(&mut self.begun, self.has_all, octet);
        self.came.put(&octet);
    }

    /// The begun line is whole.
    fn ends_line(&mut self)
        ensures { self.new.came ≡ self.old.came ++ 10 ∷ [] }
    {
        self.count = self.count.saturating_add(1);
        self.came.put(&b'\n');
        let octets = self.begun.as_slice();
        self.last
            .takes(self.alloc, self.count, octets, self.has_all);
        self.begun.clear();
        self.has_all = true;
    }
}

/// Adds an octet to the beginning of a line, unless that is too long. Returns `false` if there was
/// no memory for it, or for one before.
fn keeps(begun: &mut Vec<u8>, has_all: bool, octet: u8) -> bool
    ensures { IsTrue result → KeepsOctet octet has_all begun.old.items begun.new.items }
{
    has_all && (begun.len() >= LONGEST || begun.push(octet).is_ok())
}

/// The text of a line, or that it is none.
fn text_of(alloc: Global, octets: &[u8]) -> Result<String, AllocError>
    ensures { IfOk result (λ text. IsTold octets.now (string_bytes text)) }
{
    let text = str::from_utf8(octets).unwrap_or("(a line that is not valid UTF-8)");
    String::from_str(alloc, text)
}
