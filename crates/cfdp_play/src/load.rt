//! How much a script that is posted may ask for.
ghost use Rattle.std.specs.Prelude.{◌≡◌, MatchOption};
ghost use Rattle.cfdp_report.specs.Words.{left};
ghost use Rattle.cfdp_play.specs.Load as loads;
ghost use Rattle.cfdp_play.specs.Load.{AreFewEnough, AreTooMany, Exceeds, IsWithin, Takes};
ghost use Rattle.cfdp_play.specs.Load.{filled_by, lines_of, octets_by, puts_by};

use cfdp_report::{Words, cut_at_first, parse_number};
use std::fmt;

/// The most lines of a script.
const MOST_LINES: u64 = 2_000;

/// The most octets of all its files together.
const MOST_OCTETS: u64 = 262_144;

/// The most puts.
const MOST_PUTS: u64 = 64;

/// The most octets that all puts together may send: those of all files, once for each put.
const MOST_SENT: u64 = 1_048_576;

/// What a script asks for too much of, so that it isn't run here: `sim` runs it.
#[derive(Clone, Copy, PartialEq, Eq)]
pub enum TooMuch {
    /// It has too many lines.
    Lines,
    /// Its files have too many octets.
    Octets,
    /// It has too many puts.
    Puts,
    /// Its puts send too many octets.
    Sent,
}

impl fmt::Display for TooMuch {
    /// Returns one line, without its end.
    fn fmt<W: fmt::Write>(&self, f: &mut fmt::Formatter<W>) -> fmt::Result {
        match self {
            TooMuch::Lines => write!(f, "the script has more than {MOST_LINES} lines"),
            TooMuch::Octets => write!(
                f,
                "the files of the script have more than {MOST_OCTETS} octets"
            ),
            TooMuch::Puts => write!(f, "the script has more than {MOST_PUTS} puts"),
            TooMuch::Sent => write!(
                f,
                "the number of puts times the octets of the files is more than {MOST_SENT}"
            ),
        }?;
        f.write_str("; run it with `cfdp_node sim`")
    }
}

/// What the lines of a script ask for so far, within all bounds of a single thing.
#[derive(Clone, Copy)]
struct Load {
    lines: u64,
    octets: u64,
    puts: u64,
}

impl Load {
    /// Takes one more line. If there is too much of something with it, returns that.
    fn takes(&mut self, line: &[u8]) -> Option<TooMuch>
        requires { IsWithin self.old }
        ensures takes { MatchOption result (Takes self.old line.now self.new)
            (λ why. Exceeds why self.old line.now) }
        ensures within { IsWithin self.new }
    {
        let (octets, puts) = asked_by(line);
        if self.lines == MOST_LINES {
            Some(TooMuch::Lines)
        } else if octets > MOST_OCTETS - self.octets {
            Some(TooMuch::Octets)
        } else if puts > MOST_PUTS - self.puts {
            Some(TooMuch::Puts)
        } else {
            self.lines += 1;
            self.octets += octets;
            self.puts += puts;
            None
        }
    }
}

/// Returns how many octets a line gives a file, and how many puts it is.
#[tactic(auto, unfolding(crate::specs::Load::octets_by, crate::specs::Load::puts_by))]
fn asked_by(line: &[u8]) -> (u64, u64)
    ensures octets { result.0 ≡ octets_by line.now }
    ensures puts { result.1 ≡ puts_by line.now }
{
    let mut words = Words::of(line);
    match words.next_word() {
        Ok(verb) => (
            octets_for(verb, words, line),
            u64::from(verb == b"put".as_slice()),
        ),
        Err(_) => (0, 0),
    }
}

/// Returns how many octets a line gives a file that begins with this word, with these after it.
fn octets_for(verb: &[u8], behind: Words<'_>, line: &[u8]) -> u64
    ensures { result ≡ loads.octets_for verb.now (left behind.entry) line.now }
{
    if verb == b"fill".as_slice() {
        filled(behind)
    } else if verb == b"file".as_slice() {
        line.len() as u64
    } else {
        0
    }
}

/// Returns how many octets a file has, by the words after `fill`; 0 if they don't say it.
fn filled(words: Words<'_>) -> u64
    ensures { result ≡ filled_by (left words.entry) }
{
    match words.four() {
        Ok((_, _, count, _)) => parse_number(count).unwrap_or(0),
        Err(_) => 0,
    }
}

/// Returns what a script asks for too much of; `None` if it doesn't, and is run here.
pub fn excess_of(text: &[u8]) -> Option<TooMuch>
    ensures { MatchOption result (AreFewEnough (lines_of text.now))
        (λ why. AreTooMany why (lines_of text.now)) }
{
    let mut load = Load {
        lines: 0,
        octets: 0,
        puts: 0,
    };
    let mut rest = Some(text);
    while let Some(waiting) = rest {
        let (line, behind) = cut_at_first(waiting, b'\n');
        if let Some(excess) = load.takes(line) {
            return Some(excess);
        }
        rest = behind;
    }
    if load.octets * load.puts > MOST_SENT {
        Some(TooMuch::Sent)
    } else {
        None
    }
}
