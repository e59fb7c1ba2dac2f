//! What may be wrong with a settings file.
use std::alloc::{AllocError, AllocFailed};
use std::fmt;

/// Why a settings file says nothing of a station. Its text is one line.
#[derive(Debug, Drop)]
pub enum SettingsError {
    /// Its text isn't TOML: the line, from 1, and why.
    Syntax {
        /// The line, from 1.
        line: u64,
        /// Why it is none.
        error: toml::de::Error,
    },
    /// It has a key that is no option of a station.
    NoSuchKey {
        /// The line of the key, from 1, if it was found.
        line: Option<u64>,
        /// The key.
        key: String,
        /// The option that is most like it, if one is near to it.
        nearest: Option<&'static str>,
    },
    /// The value of a key is of another kind.
    OtherValue {
        /// The line of the key, from 1, if it was found.
        line: Option<u64>,
        /// The key.
        key: &'static str,
        /// What the value must be.
        expected: &'static str,
    },
    /// There is no memory for it.
    NoMemory,
}

impl SettingsError {
    /// Returns what is wrong with this text, by what its reader says.
    pub(crate) fn of_text(text: &str, error: toml::de::Error) -> SettingsError {
        match error.span() {
            Some(span) => SettingsError::Syntax {
                line: line_at(text.as_bytes(), span.start),
                error,
            },
            None => SettingsError::NoMemory,
        }
    }
}

/// The line, from 1, that the octet at this place stands in.
fn line_at(text: &[u8], place: usize) -> u64 {
    let mut line: u64 = 1;
    for octet in text.iter().take(place) {
        if *octet == b'\n' {
            line = line.saturating_add(1);
        }
    }
    line
}

/// Returns the line, from 1, of the text of a settings file that gives this key a value, or that
/// begins its table. `None` if the key isn't first in any line.
pub fn key_line(text: &str, key: &str) -> Option<u64> {
    let mut number: u64 = 0;
    for line in text.lines() {
        number = number.saturating_add(1);
        if is_of_key(line, key) {
            return Some(number);
        }
    }
    None
}

/// Whether a line begins with a key, as it is, in quotes, or as the name of a table.
fn is_of_key(line: &str, key: &str) -> bool {
    let line = line.trim_start();
    let line = line.strip_prefix("[").unwrap_or(line);
    let line = line.strip_prefix("\"").unwrap_or(line);
    match line.strip_prefix(key) {
        Some(rest) => {
            let rest = rest.strip_prefix("\"").unwrap_or(rest).trim_start();
            rest.starts_with("=") || rest.starts_with(".") || rest.starts_with("]")
        }
        None => false,
    }
}

impl From<AllocError> for SettingsError {
    fn from(_error: AllocError) -> SettingsError {
        SettingsError::NoMemory
    }
}

impl From<AllocFailed<String>> for SettingsError {
    fn from(_error: AllocFailed<String>) -> SettingsError {
        SettingsError::NoMemory
    }
}

impl fmt::Display for SettingsError {
    fn fmt<W: fmt::Write>(&self, f: &mut fmt::Formatter<W>) -> fmt::Result {
        match self {
            SettingsError::Syntax { line, error } => {
                let message = error.message();
                write!(f, "line {line}: {message}")
            }
            SettingsError::NoSuchKey { line, key, nearest } => {
                write!(f, "{}unknown option {key}", InLine(*line))?;
                match nearest {
                    Some(nearest) => write!(f, "; did you mean {nearest}"),
                    None => Ok(()),
                }
            }
            SettingsError::OtherValue {
                line,
                key,
                expected,
            } => write!(f, "{}{key} must be {expected}", InLine(*line)),
            SettingsError::NoMemory => f.write_str("out of memory"),
        }
    }
}

/// A line, if it is known, before what is wrong in it.
#[derive(Clone, Copy)]
struct InLine(Option<u64>);

impl fmt::Display for InLine {
    fn fmt<W: fmt::Write>(&self, f: &mut fmt::Formatter<W>) -> fmt::Result {
        match self.0 {
            Some(line) => write!(f, "line {line}: "),
            None => Ok(()),
        }
    }
}

impl std::error::Error for SettingsError {}
