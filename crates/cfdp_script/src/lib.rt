//! Scripts, from their text to their run and their report.
//!
//! Tested by `tests/rows/`, through the program above.
#![tactic(auto)]

mod input;
mod script;
mod world_onlooker;

pub use input::{MAX_SCRIPT, read_script};
pub use script::command::{Command, Contents, Damage, Disorder, Fate, FileLine, Pick};
pub use script::outboxes::outboxes;
pub use script::perform::damaged;
pub use script::report::{asked_puts, write_inbox};
pub use script::sim::{run_sim, run_text};
pub use script::{Script, Step};
