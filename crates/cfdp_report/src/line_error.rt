//! Why a line of a script is bad.
ghost use Rattle.std.specs.Prelude.{◌≡◌, Some};
ghost use Rattle.cfdp_report.specs.Report.Lines.{bad_script_text};

use crate::report::name::Name;
use crate::settings::table::{Keys, Setting};
use std::fmt;

/// A bad line of a script, by its number. The first line is 1.
#[derive(Clone, Copy)]
pub struct BadLine {
    /// Its number, from 1 on.
    pub line: usize,
    /// Why it is bad.
    pub error: LineError,
    /// The word that is wrong, if it is one.
    pub word: Quote,
    /// What may stand there.
    pub hint: Hint,
}

impl BadLine {
    /// Returns a line that is bad as a whole, and needs no hint.
    pub fn whole(line: usize, error: LineError) -> BadLine
        ensures { result.line ≡ line }
    {
        BadLine {
            line,
            error,
            word: Quote::NONE,
            hint: Hint::Nothing,
        }
    }
}

impl BadLine {
    /// Returns `true` if it is bad only because something must be shown of the run.
    pub fn is_unshown(&self) -> bool {
        matches!(self.error, LineError::Unshown)
    }
}

/// Says which line is bad, in one line without its end.
impl fmt::Display for BadLine {
    ghost output = { λ bad. Some (bad_script_text bad.line) };

    fn fmt<W: fmt::Write>(&self, f: &mut fmt::Formatter<W>) -> fmt::Result {
        write!(f, "line {}: bad script", self.line)
    }
}

/// Why a line is bad.
#[derive(Clone, Copy)]
pub struct Reason(pub BadLine);

/// Writes one line, without its end: the word that is wrong, what was expected, and a hint.
impl fmt::Display for Reason {
    fn fmt<W: fmt::Write>(&self, f: &mut fmt::Formatter<W>) -> fmt::Result {
        let BadLine {
            error,
            word,
            hint,
            ..
        } = self.0;
        write!(f, "{word}{error}{hint}")
    }
}

/// How many octets of a word are shown at most.
const QUOTED: usize = 40;

/// A word as it is shown: its first 40 octets.
#[derive(Clone, Copy)]
pub struct Quote {
    octets: [u8; QUOTED],
    length: usize,
}

impl Quote {
    /// No word.
    pub const NONE: Quote = Quote {
        octets: [0; QUOTED],
        length: 0,
    };

    /// Returns this word.
    pub fn of(word: &[u8]) -> Quote {
        let mut quote = Quote {
            octets: [0; QUOTED],
            length: word.len().min(QUOTED),
        };
        for (place, octet) in quote.octets.iter_mut().zip(word) {
            *place = *octet;
        }
        quote
    }

    /// Returns its octets as text; nothing if they are none.
    pub fn text(&self) -> &str {
        let octets = self.octets.get(..self.length).unwrap_or(&[]);
        str::from_utf8(octets).unwrap_or("")
    }
}

/// Writes the word in quotes with a colon after it; nothing if there is no word.
impl fmt::Display for Quote {
    fn fmt<W: fmt::Write>(&self, f: &mut fmt::Formatter<W>) -> fmt::Result {
        let word = self.octets.get(..self.length).unwrap_or(&[]);
        if word.is_empty() {
            return Ok(());
        }
        write!(f, "\"{}\": ", Name(word))
    }
}

/// What may stand in the wrong part of a line.
#[derive(Clone, Copy)]
pub enum Hint {
    /// Nothing more is known of it than the error says.
    Nothing,
    /// Of the words that may stand there, the one that is most like it.
    Nearest(Quote),
    /// How the command is written.
    Form(Quote),
    /// One of the keys of `set`.
    Keys,
    /// A value of this setting.
    Value(Setting),
    /// The help that lists the commands.
    Help,
}

/// Writes what goes on from the sentence of the error.
impl fmt::Display for Hint {
    fn fmt<W: fmt::Write>(&self, f: &mut fmt::Formatter<W>) -> fmt::Result {
        match self {
            Hint::Nothing => Ok(()),
            Hint::Nearest(word) => write!(f, "; did you mean {}", word.text()),
            Hint::Form(form) => write!(f, "; usage: {}", form.text()),
            Hint::Keys => write!(f, "; the keys are {Keys}"),
            Hint::Value(setting) => {
                let (key, range) = (setting.key(), setting.range());
                write!(f, "; {key} must be {range}")
            }
            Hint::Help => f.write_str("; 'cfdp_node sim --help' lists all commands"),
        }
    }
}

/// Why a line of a script is bad.
#[derive(Clone, Copy)]
pub enum LineError {
    /// It has more than `MAX_LINE` octets.
    TooLong,
    /// An octet of it isn't ASCII.
    NotAscii,
    /// A word or a text is missing.
    MissingWord,
    /// Two spaces stand together, or one begins or ends the line.
    EmptyWord,
    /// There are more words than the command takes.
    ExtraWord,
    /// There is no such command.
    UnknownCommand,
    /// There is no such key to set.
    UnknownKey,
    /// The station isn't the number 1 or 2.
    UnknownStation,
    /// A number isn't decimal digits below 2^64.
    BadNumber,
    /// What stands in the place of a lane or a number isn't `dir` or `data`, nor such a number.
    UnknownLane,
    /// The number of a frame is 0.
    NoFrame,
    /// A transaction isn't two numbers with a colon between.
    BadId,
    /// What a prompt asks for isn't `nak` or `keep`.
    UnknownPrompt,
    /// A file to fill has more than `MAX_FILL` octets.
    FileTooLong,
    /// An octet isn't two hexadecimal digits.
    BadOctet,
    /// `set`, `file` or `fill` stands after another command.
    TooLate,
    /// The last `set` leaves a setting out of its range. This is its value, and the line that set
    /// that one.
    OutOfRange {
        setting: Setting,
        value: u64,
        line: usize,
    },
    /// The last `set` leaves a configuration that isn't valid.
    BadConfiguration,
    /// Something must be shown of the run, and the command is none of a link that keeps the order
    /// of its frames: nobody can look on there.
    Unshown,
}

impl fmt::Display for LineError {
    /// Writes the sentence that explains it.
    fn fmt<W: fmt::Write>(&self, f: &mut fmt::Formatter<W>) -> fmt::Result {
        match self {
            LineError::TooLong => f.write_str("the line has more than 4,096 octets"),
            LineError::NotAscii => f.write_str("the line has an octet that is not ASCII"),
            LineError::MissingWord => f.write_str("a word is missing"),
            LineError::EmptyWord => {
                f.write_str("two spaces in a row, or a space at the start or end of the line")
            }
            LineError::ExtraWord => f.write_str("too many words"),
            LineError::UnknownCommand => f.write_str("unknown command"),
            LineError::UnknownKey => f.write_str("unknown key"),
            LineError::UnknownStation => f.write_str("a station must be 1 or 2"),
            LineError::BadNumber => {
                f.write_str("a number must be whole, 0 to 18446744073709551615")
            }
            LineError::UnknownLane => f.write_str(
                "a lane must be dir or data, and a number whole, 0 to 18446744073709551615",
            ),
            LineError::NoFrame => f.write_str("the number of a frame must be 1 or more"),
            LineError::BadId => {
                f.write_str(
                    "a transaction must be two whole numbers with a colon between, e.g. 1:7",
                )
            }
            LineError::UnknownPrompt => f.write_str("a prompt must ask for nak or keep"),
            LineError::FileTooLong => f.write_str(
                "a file to fill must have at most 1,048,576 octets",
            ),
            LineError::BadOctet => f.write_str("an octet must be two hexadecimal digits, e.g. 0A"),
            LineError::TooLate => f.write_str(
                "set, file and fill must come before all other commands",
            ),
            LineError::OutOfRange {
                setting,
                value,
                line,
            } => {
                let (key, range) = (setting.key(), setting.range());
                write!(
                    f,
                    "{key}, set in line {line}, must be {range} (got {value})"
                )
            }
            LineError::BadConfiguration => {
                f.write_str("a setting is out of its range after the last set")
            }
            LineError::Unshown => f.write_str(
                "not allowed with --explain, --trace, --pcap or --chart",
            ),
        }
    }
}
