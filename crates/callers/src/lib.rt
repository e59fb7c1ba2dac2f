//! Callers of the crates below, as a user of theirs writes them: no part of the product, and proved
//! like it, to show that a contract is enough for a caller.
//!
//! - `turn` drives a station over a link of the caller's own, and `default_station` makes one.
//!   README.md shows the turn.
//! - `LongFile` is a store of the caller's own, with the proof that it must have.
//! - `three_fields`, `written_and_read` and `arm_two` need no lemma.
//!
//! Tested by `tests/transcripts/bits.txt`, `large.txt` and `timers.txt` there.
#![tactic(auto)]

mod fields;
mod long_file;
mod own_link;
mod timers;

pub use fields::{three_fields, written_and_read};
pub use long_file::LongFile;
pub use own_link::{Link, NoStation, default_station, turn};
pub use timers::arm_two;
