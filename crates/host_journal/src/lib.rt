//! The journal of the program's station: where it lies, by the files and the clock of the runtime.
//!
//! ```
//! let journal = new_journal(&rt, setup);
//! // Whoever looks on at the station shows the journal all that passes.
//! sees(&journal, passed, station);
//! // After the station was killed:
//! if let Some(survey) = read_survey(&rt, path, owner, addressing)? {
//!     let restored = transfer_journal::restore(alloc, &mut port, survey)?;
//! }
//! ```
//!
//! Tested by `tests/resumes.py`, through the program above.
#![tactic(auto)]

mod host_place;
mod seeing;

pub use host_place::{HostJournal, HostPlace, HostSetup, new_journal, read_survey};
pub use seeing::sees;
