//! Laws: two ports whose wires keep the order of each lane are the two stations of a world, so the
//! promises of a world hold of them.
//!
//! These laws say nothing about code of their own, so nothing tests them.
#![tactic(auto)]

mod laws;

pub use laws::{told_complete_is_published, turns_are_of_a_world};
