//! No code; laws of stations over secured wires: two ports in turns are the stations of a world;
//! two stations in service keep the promise of delivery, whatever arrives and whichever of them
//! restarts.
//!
//! These laws say nothing about code of their own, so nothing tests them.
#![tactic(auto)]

mod laws;

pub use laws::{
    a_secured_turn_in_part_ends_early, only_what_was_sealed_is_handed_on,
    secured_turns_are_of_a_world, secured_wires_bring_copies, secured_wires_keep_the_order,
    service_over_secured_wires_is_service, stations_over_secured_wires_keep_the_promise,
    what_is_not_forged_is_accepted, what_is_sealed_are_the_frames_of_a_station,
    what_is_sealed_is_accepted, what_left_the_spool_lies_beyond_secured_wires,
};
