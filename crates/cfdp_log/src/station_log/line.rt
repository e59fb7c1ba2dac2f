//! A line of a log for people: the time, what a report says, and the names of the file.
ghost use Rattle.std.specs.Io.KnownBytes.{Appends};
ghost use Rattle.std.specs.Prelude.{◌≡◌, ◌-◌, ◌++◌, ◌∷◌, [], ℕ, List, OnOk, length, take};

use crate::station_log::style::Log;
use cfdp_directives::Condition;
use cfdp_report::{Name, condition_name};
use cfdp_service::PutNames;
use std::io;
use std::io::Write;

/// Room for the longest line, of two names of 255 octets, each printed as three, and for the lines
/// of all counters at the end.
pub const LINE_ROOM: usize = 4096;

/// Adds the time and a space, if there is a time.
///
/// # Errors
///
/// `OutOfMemory`.
pub fn add_time(line: &mut Vec<u8>, log: Log<'_>) -> io::Result<()> {
    match log.time() {
        Some(now) => write!(line, "{now:.3} "),
        None => Ok(()),
    }
}

/// Puts the names of a file after a line that is ended already, if they are known, and the name of
/// a condition in parentheses, if there is one.
///
/// # Errors
///
/// `OutOfMemory`.
pub fn add_names(
    line: &mut Vec<u8>,
    names: Option<&PutNames>,
    condition: Option<Condition>,
) -> io::Result<()>
    ensures { OnOk result ((behind : List ℕ) × (line.new.items
        ≡ take (length line.old.items - 1) line.old.items ++ behind ++ 10 ∷ [])) }
{
    let front = line.len().saturating_sub(1);
    line.truncate(front);
    write_behind(line, names, condition)?;
    write!(line, "\n")
}

/// Writes the names of a file, each after a space, and a condition.
///
/// # Errors
///
/// `OutOfMemory`.
fn write_behind(
    line: &mut Vec<u8>,
    names: Option<&PutNames>,
    condition: Option<Condition>,
) -> io::Result<()>
    ensures { OnOk result ((behind : List ℕ) × (line.new.items ≡ line.old.items ++ behind)) }
{
    match (names, condition) {
        (None, None) => Ok(()),
        (None, Some(condition)) => write!(line, " ({})", condition_name(condition.code())),
        (Some(names), condition) => write_names(line, names, condition),
    }
}

/// Writes the names of a file, each after a space, and a condition.
///
/// # Errors
///
/// `OutOfMemory`.
fn write_names(line: &mut Vec<u8>, names: &PutNames, condition: Option<Condition>) -> io::Result<()>
    ensures { OnOk result ((behind : List ℕ) × (line.new.items ≡ line.old.items ++ behind)) }
{
    let (source, destination) = (names.source.as_slice(), names.destination.as_slice());
    match condition {
        None => write!(line, " {} {}", Name(source), Name(destination)),
        Some(condition) => {
            let name = condition_name(condition.code());
            write!(line, " {} {} ({name})", Name(source), Name(destination))
        }
    }
}

/// Writes a line that is made.
///
/// # Errors
///
/// That of the writer.
pub fn write_line<V: Write>(out: &mut V, line: &[u8]) -> io::Result<()>
    ensures { OnOk result (Appends (V.contents out.old) (V.contents out.new) line.now) }
{
    out.write_all(line)
}
