//! What a run reads from.
use std::fmt;

/// What a script, or the lines of a dump, are read from.
#[derive(Clone, Copy)]
pub enum Input<'a> {
    /// Standard input.
    Standard,
    /// The file of this name.
    File(&'a str),
}

impl<'a> Input<'a> {
    /// Returns the file of this name, if there is one, or otherwise standard input.
    pub fn of(file: &'a Option<String>) -> Input<'a> {
        match file {
            Some(name) => Input::File(name.as_str()),
            None => Input::Standard,
        }
    }
}

impl fmt::Display for Input<'_> {
    fn fmt<W: fmt::Write>(&self, f: &mut fmt::Formatter<W>) -> fmt::Result {
        match self {
            Input::Standard => f.write_str("standard input"),
            Input::File(name) => write!(f, "the file {name}"),
        }
    }
}
