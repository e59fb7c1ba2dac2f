//! The journal of a station: what it notes of its transactions while it runs, and what a later
//! start takes from that, so that they go on. Where it lies, and the calls of the system for that,
//! are its user's: a `JournalPlace`.
//!
//! ```
//! let journal = TransferJournal::new(alloc, place, setup);
//! // The station is new, or has what is restored below.
//! journal.begins(&station, pending);
//! // After each tick, each request and each poll:
//! journal.ticks(&station, pending);
//! journal.commits(&station);
//! journal.polls(&station);
//! // After the station was killed:
//! if let Some(survey) = read_survey(alloc, &place, owner, addressing)? {
//!     let restored = restore(alloc, &mut station, survey)?;
//! }
//! ```
//!
//! Tested by `tests/resumes.py` and `tests/bindings.py`, through the program and the library above.
#![tactic(auto)]

mod facts;
mod file;
mod journal;
mod kept;
mod noted;
mod place;
mod ports;
mod publishing;
mod ranges;
mod reading;
mod restoring;
mod survey;

pub use journal::{JournalSetup, TransferJournal};
pub use journal_records::Owner;
pub use kept::{KeptEnd, KeptReceiver, KeptSender, KeptTransfer, PendingEnd, Publication};
pub use place::{JournalError, JournalPlace};
pub use publishing::{PublishRules, publish_again};
pub use reading::{SurveyError, read_survey};
pub use restoring::{Restorable, Restored, ResumedTransaction, restore};
pub use survey::{ForgottenRange, Survey};
