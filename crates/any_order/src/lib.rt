//! Two stations over a link that delivers their frames in any order, any number of times, or not at
//! all, and among them other octets: what of the promise of delivery holds then, also if a station
//! restarts or resumes.
//!
//! Clean completion and recovery are promises of `link_sim`, whose worlds keep the order.
//!
//! Tested by `tests/rows/any_order.rows` and `tests/any_order.py`, through the program above.
#![tactic(auto)]

mod answers;
mod end;
mod laws;
mod life;
mod restoring;
mod unordered;
mod world;

pub use answers::{Delivered, Restarted, Resumed, SentFrame};
pub use laws::{
    a_resume_goes_on, lives_stay, the_files_to_send_stay, the_promise_holds_in_any_order,
    the_promise_holds_where_stations_resume,
};
pub use life::LifeFrames;
pub use unordered::UnorderedWorld;
