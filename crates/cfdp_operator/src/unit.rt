//! The unit of a station's times, in words.
use cfdp_command_line::TimeUnit;

/// Returns the word for a unit of times.
pub fn unit_word(unit: TimeUnit) -> &'static str {
    match unit {
        TimeUnit::Seconds => "s",
        TimeUnit::Milliseconds => "ms",
    }
}
