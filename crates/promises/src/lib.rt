//! What is promised of two stations whose links lose, repeat, reorder and damage frames, and which
//! restart or go on from a journal: the laws at the top, which a reader may begin with.
//!
//! The crate has no code. Each module joins what the crates below promise:
//!
//! - `settling`: how many events a settling may have at most, known before it begins.
//! - `endings`: what is open ends, also if a station restarts.
//! - `resuming`: what is open ends, and recovery rests on what it rested on, also if a station that
//!   was killed goes on with the transactions of its journal. The promise of delivery is then a
//!   law of `any_order`.
//! - `in_service`: what two stations in service do, turn by turn, is what is promised over any
//!   link, and what it means for the files of a spool.
//! - `resuming_in_service`: the same of stations in service that resume.
//!
//! Tested by nothing: what it promises is proved.
#![tactic(auto)]

mod endings;
mod in_service;
mod resuming;
mod resuming_in_service;
mod settling;

pub use endings::what_is_open_ends_in_any_order;
pub use in_service::{
    a_new_station_starts_anew, a_transmission_is_calls, a_turn_in_part_ends_early, a_turn_is_calls,
    stations_keep_the_promise_in_any_order, two_new_stations_have_served,
    what_is_done_between_turns_is_deeds, what_is_open_ends_in_service, what_is_wished_is_fulfilled,
    what_left_the_spool_lies_in_the_inbox,
};
pub use resuming::{resumes_keep_what_losses_keep, what_is_open_ends_where_stations_resume};
pub use resuming_in_service::{
    a_station_may_resume_at_any_time, stations_keep_the_promise_where_they_resume,
    stations_that_restart_are_such, what_left_a_spool_lies_in_the_inbox_where_stations_resume,
};
pub use settling::a_settling_has_few_events;
