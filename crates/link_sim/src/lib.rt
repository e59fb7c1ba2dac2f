//! Two stations of CFDP, class 2, the frames between them, and what may happen to both: the
//! delivery theorem is the contract of [`World`] and [`run`].
//!
//! Tested by `tests/rows/` and `tests/random_scripts.py`, through the program above.
#![tactic(auto)]

mod event;
mod frame_link;
mod frame_links;
mod in_memory;
mod looking;
mod loss_run;
mod mark;
mod promises;
mod recover;
mod settle;
mod shortages;
mod spread;
mod stations;
mod two_stations;
mod witness;
mod world;

pub use aos_frame::Lane;
pub use event::{AcceptedPut, Applied, Event};
pub use frame_link::FrameLink;
pub use frame_links::FrameLinks;
pub use loss_run::{LossRun, MOST_STRUCK};
pub use mark::{Loss, Mark};
pub use promises::worlds_keep_the_promises;
pub use station_pair::{RecoverError, Refusal, SettleError, Side, WorldConfig, WorldField};
pub use stations::Stations;
pub use witness::Witness;
pub use world::{World, run};
