//! Scripts over a link that keeps no order, and stations that restart or resume: their run and
//! report.
//!
//! If a script has none of the commands for that, it runs as `cfdp_script` says.
//!
//! Tested by `tests/rows/any_order.rows` and `tests/any_order.py`, through the program above.
#![tactic(auto)]

mod answer;
mod copies;
mod links;
mod perform;
mod play;
mod report;
mod run;
mod sim;
mod told;

pub use sim::run_script;
