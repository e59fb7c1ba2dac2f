//! What is wrong with a line that isn't pairs of hexadecimal digits.
ghost use Rattle.std.specs.Prelude.{◌≡◌, ◌<◌, length, Some};
ghost use Rattle.cfdp_dump.specs.Dump.Told as told;
ghost use Rattle.cfdp_dump.specs.Dump.Told.{IsSaidOf, place_text};
ghost use Rattle.cfdp_dump.specs.Spelled.Refusal.{has_details};

use crate::dump::DumpRequest;
use std::fmt;

/// The place at which a line is wrong, and whether that is shown.
#[derive(Clone, Copy)]
pub(crate) struct BadPlace {
    /// The column in its line, from 1, of the first octet that may not stand there, if there is
    /// one; otherwise the digits are odd in number.
    column: Option<usize>,
    is_told: bool,
}

impl fmt::Display for BadPlace {
    ghost output = { λ place. Some (place_text place.is_told place.column) };

    fn fmt<W: fmt::Write>(&self, f: &mut fmt::Formatter<W>) -> fmt::Result {
        match self.column {
            _ if !self.is_told => Ok(()),
            Some(column) => write!(f, " column {column}"),
            None => f.write_str(" odd digits"),
        }
    }
}

impl BadPlace {
    /// Returns the bad place of digits that stand after so many octets of a line.
    pub(crate) fn of(request: DumpRequest, before: u8, digits: &[u8]) -> BadPlace
        ensures said { IsSaidOf request.by_tools before digits.now result.column }
        ensures told { result.is_told ≡ has_details request.form }
    {
        BadPlace {
            column: bad_column(request.by_tools, before, digits),
            is_told: request.form.has_details(),
        }
    }
}

/// Returns the column of the first octet that may not stand in digits after so many octets of a
/// line.
fn bad_column(by_tools: bool, before: u8, digits: &[u8]) -> Option<usize>
    ensures { IsSaidOf by_tools before digits.now result }
{
    for place in 0..digits.len() {
        if !may_stand(by_tools, digits, place) {
            return Some(usize::from(before) + place + 1);
        }
    }
    None
}

/// Returns `true` if the octet at a place of a text may stand there.
fn may_stand(by_tools: bool, line: &[u8], place: usize) -> bool
    requires { place < length line.now }
    ensures { result ≡ told.may_stand by_tools line.now place }
{
    match line[place] {
        b'0'..=b'9' | b'A'..=b'F' | b'a'..=b'f' => true,
        b' ' => by_tools,
        b'x' => by_tools && follows_zero(line, place),
        _ => false,
    }
}

/// Returns `true` if a word begins before a place of a text, with 0.
fn follows_zero(line: &[u8], place: usize) -> bool
    requires { place < length line.now }
    ensures { result ≡ told.follows_zero line.now place }
{
    place >= 1 && line[place - 1] == b'0' && begins_word(line, place - 1)
}

/// Returns `true` if a word begins at a place of a text.
fn begins_word(line: &[u8], place: usize) -> bool
    requires { place < length line.now }
    ensures { result ≡ told.begins_word line.now place }
{
    place == 0 || line[place - 1] == b' '
}
