//! The operator of a station that runs: what is asked and commanded, what is answered and shown,
//! and what is reported of files, of the link and of the peer, on standard error and in the log.
//!
//! Tested by `tests/stations.py`, through the program above.
#![tactic(auto)]

mod fault;
mod notices;
mod operator_console;
mod refusals;
mod said;
mod teller;
mod telling;
mod unit;
mod unknown_cancels;

pub use fault::fault_text;
pub use notices::{Notices, tell_authentication, tell_timers};
pub use operator_console::{OperatorConsole, OperatorPost};
pub use refusals::FileLimits;
pub use said::Said;
pub use teller::{SpoolNotes, Teller, note};
pub use telling::{InboxRules, LoopLookout, TellingInbox, TellingNoInbox, TellingOutbox};
