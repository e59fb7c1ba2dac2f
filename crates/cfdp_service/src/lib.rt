//! A station in service: what its user asks of it, one thing after another, what the user hears of
//! it, and the turns between.
//!
//! A [`User`] is asked what it wishes before each turn: to send a file, or to change a transaction.
//! It hears how each wish was answered, and all that the station indicates. A [`Clerk`] is a user
//! that sends files in their order, so many at a time: those that a [`Console`] asks for, and those
//! that lie in a [`Spool`].
//!
//! Tested by `tests/rows/stations.rows` and `tests/stations.py`, through the program above.
#![tactic(auto)]

mod clerk;
mod console;
mod giving_up;
mod laws;
mod running;
mod serving;
mod spool;
mod tries;
mod user;
mod wish;

pub use clerk::{Clerk, ClerkLimits};
pub use console::{Console, OperatorCommand, SpoolOutcome};
pub use laws::{what_is_sent_was_heard_complete, what_is_sent_was_told_complete};
pub use running::{Ended, ServiceEnds, ServiceOptions, run, run_restored};
pub use serving::serve;
pub use spool::{NoSpool, Spool};
pub use user::{Intent, User};
pub use wish::{PutNames, Reply, Wish};
