//! The console of a station: what a browser asks of it, and what it is shown.
//!
//! A [`Caller`] is one connection, as steps over octets. It gives what its request asks, an
//! [`Ask`], if its sender may ask that by the [`Guard`]: to be shown something, or a command, in a
//! line as the control address of a station takes it. The program does it, and gives a
//! [`WebAnswer`].
//!
//! [`Visitors`] are up to 16 connections, over streams that don't wait. They are asked, once a turn
//! of the station, for the next thing that one of them asks: a call takes what came and sends what
//! the streams have room for, a bounded piece of each, so that the station is never late for a
//! console. The crate makes no call of the system but through the [`WebStream`] that it is given.
//!
//! Tested by `tests/console.py`, through the program above.
#![tactic(auto)]

mod answer;
mod asking;
mod caller;
mod deed;
mod denial;
mod details;
mod documents;
mod guard;
mod ledger;
mod log_lines;
mod look;
mod metrics;
mod octets;
mod page;
mod passed;
mod piece;
mod ranges;
mod replying;
mod rounds;
mod samples;
mod shown;
mod stream;
mod visitor;
mod visitors;

pub use answer::{BodyKind, WebAnswer};
pub use asking::{Ask, judge};
pub use caller::Caller;
pub use denial::Denial;
pub use guard::{Guard, is_own};
pub use ledger::{Closed, Known, Ledger, Names, TransferEnd, Way};
pub use log_lines::{LogLine, LogLines};
pub use look::Look;
pub use page::PAGE;
pub use passed::Traffic;
pub use ranges::RangeSummary;
pub use replying::reply;
pub use rounds::{Nak, Round, Rounds};
pub use samples::{FrameCounts, Samples};
pub use shown::{
    ConsoleView, Details, Dropped, Failed, LinkStatus, NoteShown, Open, OpenPhases, Parts,
    ShownCounters, Status, TimerShown, Told,
};
pub use stream::WebStream;
pub use visitor::{Visitor, Wants};
pub use visitors::Visitors;
