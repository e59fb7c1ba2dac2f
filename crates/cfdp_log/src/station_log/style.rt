//! How a log is written, by whom, and when.
use jiff::Timestamp;

/// How a log is written.
#[derive(Clone, Copy, Debug, PartialEq, Eq)]
pub enum Style {
    /// The lines of a report, with no time.
    Plain,
    /// The same lines with the time in front, and names of files after.
    Text,
    /// An object of JSON a line, with the time if `has_time`.
    Json {
        /// Whether each object has the time.
        has_time: bool,
    },
}

/// What all lines of a log share.
#[derive(Clone, Copy)]
pub struct Log<'a> {
    /// What has the clock.
    pub rt: &'a HostRuntime,
    /// The id of the entity whose log it is.
    pub own: u64,
    /// How it is written.
    pub style: Style,
}

impl Log<'_> {
    /// Returns the time now, if a line must have it and the clock can be read.
    pub fn time(&self) -> Option<Timestamp> {
        match self.style {
            Style::Plain | Style::Json { has_time: false } => None,
            Style::Text | Style::Json { has_time: true } => Timestamp::now(self.rt).ok(),
        }
    }
}

/// Returns the milliseconds since 1970; 0 if the clock can't be read.
pub fn unix_time(rt: &HostRuntime) -> u64 {
    match Timestamp::now(rt) {
        Ok(time) => u64::try_from(time.as_millisecond()).unwrap_or(0),
        Err(_) => 0,
    }
}
