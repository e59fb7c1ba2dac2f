//! The words for two stations that are each other's peers: which of the two is meant, how both are
//! set up, and why an event, a settling or a recovery fails.
//!
//! Simulated worlds (`link_sim`) and programs that run a real station share these, so that such a
//! program doesn't depend on the simulator.
//!
//! Tested by `tests/rows/`, through the crates above.
#![tactic(auto)]

mod recover_error;
mod refusal;
mod settle_error;
mod side;
mod world_config;

pub use recover_error::RecoverError;
pub use refusal::Refusal;
pub use settle_error::SettleError;
pub use side::Side;
pub use world_config::{WorldConfig, WorldField};
