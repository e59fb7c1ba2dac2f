//! The records of a station's journal: what the station must know of its transactions so that they
//! go on after a restart.
//!
//! ```rust
//! let batch = batch_of(alloc, &records)?;
//! // .. is appended to a file, and synced. After a restart:
//! let journal = read_journal(alloc, &file)?;
//! for record in &journal.records {}
//! ```
//!
//! Tested by `tests/transcripts/records.txt`.
#![tactic(auto)]

mod fault;
mod fields;
mod journal;
mod laws;
mod ranges;
mod reading;
mod record;
mod writing;

pub use fault::{BatchFault, ReadError};
pub use journal::{JournalText, batch_of, read_journal};
pub use laws::what_is_written_is_read;
pub use ranges::RangeList;
pub use reading::read_records;
pub use record::{JournalRecord, Owner, RecordKind};
pub use writing::write_records;
