//! Deadlines of transactions, by transaction and kind, and which of them are due.
//!
//! ```rust
//! let mut timers = Timers::new(alloc);
//! timers.room(id)?;
//! let deadline = timers.deadline_after(10);
//! timers.arm(id, Kind::Nak, deadline);
//! for (id, kind) in timers.fire(now)? {
//!     // The NAK of that transaction must be sent again.
//! }
//! ```
//!
//! Tested by `tests/transcripts/timers.txt`.
#![tactic(auto)]

mod alarm;
mod blocks;
mod bounds;
mod deadlines;
mod effects;
mod entries;
mod kind;
mod laws;
mod timers;
mod wait;
mod walk;

pub use effects::Effects;
pub use kind::Kind;
pub use laws::{what_fired_is_armed_no_more, what_is_waited_for_is_armed};
pub use timers::Timers;
pub use wait::{Wait, Waits, is_anew};
