//! What a station writes down: its log, how many files and octets went and came, the transactions
//! that are open, and what the console shows of all that.
//!
//! Tested by `tests/rows/stations.rows` and `tests/stations.py`, through the program above.
#![tactic(auto)]

mod board;
mod details;
mod kept_log;
mod line_queue;
mod lossy_log;
mod pdu_watch;
mod station_log;

pub use board::{Board, BoardSetup, Moment};
pub use kept_log::KeptLog;
pub use line_queue::{LineQueue, MOST_WAITING};
pub use lossy_log::LossyLog;
pub use pdu_watch::{PduWatch, SeenPdu, SeenPdus};
pub use station_log::noted::{Noted, NotedTopics};
pub use station_log::overview::{Clock, Form, Waiting};
pub use station_log::stopped::Stopped;
pub use station_log::style::{Log, Style};
pub use station_log::totals::{Failures, Totals};
pub use station_log::{LogSetup, StationLog};
