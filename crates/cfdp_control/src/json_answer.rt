//! The answer of a station, as one object of JSON.
use crate::shown::ShownAnswer;
use std::{fmt, slice};

/// The last line of an answer to what was done.
const DONE: &[u8] = b"ok\n";

/// How an answer to what was refused begins.
const REFUSED: &[u8] = b"error: ";

/// An answer as an object of JSON: an object that the station answered as it is, otherwise whether
/// it was done (`ok`), with the reason (`error`) or the lines of the answer (`text`).
#[derive(Clone, Copy)]
pub struct JsonAnswer<'a>(pub &'a [u8]);

impl fmt::Display for JsonAnswer<'_> {
    fn fmt<W: fmt::Write>(&self, f: &mut fmt::Formatter<W>) -> fmt::Result {
        if let Some(why) = self.0.strip_prefix(REFUSED) {
            let why = JsonOctets(why.trim_ascii_end());
            return write!(f, "{{\"ok\":false,\"error\":{why}}}");
        }
        let lines = self.0.strip_suffix(DONE).unwrap_or(self.0).trim_ascii_end();
        if lines.is_empty() {
            write!(f, "{{\"ok\":true}}")
        } else if lines.starts_with(b"{") {
            write!(f, "{}", ShownAnswer(lines))
        } else {
            write!(f, "{{\"ok\":true,\"text\":{}}}", JsonOctets(lines))
        }
    }
}

/// Octets as a text of JSON with its quotes.
#[derive(Clone, Copy)]
struct JsonOctets<'a>(&'a [u8]);

impl fmt::Display for JsonOctets<'_> {
    fn fmt<W: fmt::Write>(&self, f: &mut fmt::Formatter<W>) -> fmt::Result {
        write!(f, "\"")?;
        for octet in self.0 {
            match *octet {
                b'"' => write!(f, "\\\"")?,
                b'\\' => write!(f, "\\\\")?,
                b'\n' => write!(f, "\\n")?,
                octet => write!(f, "{}", ShownAnswer(slice::from_ref(&octet)))?,
            }
        }
        write!(f, "\"")
    }
}
