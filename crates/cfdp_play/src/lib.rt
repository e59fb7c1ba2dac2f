//! A page in a browser in which two stations and the link between them can be tried.
//!
//! The page holds a script, and asks for the run of it again and again: nothing is kept here from
//! one request to the next. A script is run by `run_sim` into a buffer in memory, over a link that
//! keeps the order of its frames, as `cfdp_node sim` runs such a script.
//!
//! Tested by `tests/play.py`, through the program above.
#![tactic(auto)]

mod answer;
mod asking;
mod client;
mod clients;
mod fields;
mod load;
mod page;
mod play;
mod run;
mod serving;
mod shown;
mod values;

pub use play::play_status;
pub use serving::Serving;
