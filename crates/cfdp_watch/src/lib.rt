//! One who looks on at stations and the frames between them, and what is shown of it.
//!
//! Tested by `tests/rows/seen.rows`, through the programs above.
#![tactic(auto)]

mod capture;
mod chart;
mod condition;
mod dropped;
mod frames;
mod kept;
mod onlooker;
mod pace;
mod progress;
mod recorder;
mod sent;
mod show;
mod shown;
mod sighting;
mod standing;
mod station_capture;
mod trace;

pub use kept::Kept;
pub use onlooker::{Onlooker, Summary};
pub use progress::{Progress, Reception};
pub use recorder::Screen;
pub use show::{Ran, shown_status};
pub use shown::Shown;
pub use sighting::{Deed, Sighting};
pub use standing::Standing;
pub use trace::write_trace;
