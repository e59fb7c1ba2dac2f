//! A line that came, and who sent it.
ghost use Rattle.cfdp_control.specs.Lines.{IsTextOf};

use crate::line_buffer::Taken;
use std::fmt;

/// Who sent a line, and must get the answer.
#[derive(Clone, Copy, PartialEq, Eq)]
pub enum Speaker {
    /// Whoever writes to standard input.
    Standard,
    /// The connection of this number: the first one since the start is 1.
    Connection(u64),
    /// The connection of the console of this number.
    Web(u64),
}

/// Why what came is no line.
#[derive(Clone, Copy, PartialEq, Eq)]
pub enum LineFault {
    /// It has more than 4,096 octets.
    TooLong,
    /// It isn't UTF-8.
    NotText,
    /// It is of a web client, as a page in a browser of this machine can have one sent.
    OfWeb,
    /// Its sender ended, and no line feed stands at its end.
    NoEnd,
    /// There is no memory for it.
    NoMemory,
}

impl fmt::Display for LineFault {
    /// One line, without its end.
    fn fmt<W: fmt::Write>(&self, f: &mut fmt::Formatter<W>) -> fmt::Result {
        f.write_str(match self {
            LineFault::TooLong => "the line has more than 4,096 octets",
            LineFault::NotText => "the line is not valid UTF-8",
            LineFault::OfWeb => "this is not a web server",
            LineFault::NoEnd => "the last line has no line feed at its end",
            LineFault::NoMemory => "out of memory",
        })
    }
}

/// What a line has that a web client sends first.
const WEB: &str = " HTTP/1.";

/// Returns what was taken of a source, as the text of a line.
///
/// # Errors
///
/// The `LineFault` if it is none.
pub(crate) fn text_of(taken: Taken) -> Result<String, LineFault>
    ensures { IsTextOf taken result }
{
    let octets = match taken {
        Taken::Line(octets) => octets,
        Taken::TooLong => return Err(LineFault::TooLong),
    };
    let Ok(text) = String::from_utf8(octets) else {
        return Err(LineFault::NotText);
    };
    if text.as_str().contains(WEB) {
        return Err(LineFault::OfWeb);
    }
    Ok(text)
}
