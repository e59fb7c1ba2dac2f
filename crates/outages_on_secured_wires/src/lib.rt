//! What a transfer of two ports outlives of secured wires, whatever the network does: laws.
//!
//! These laws say nothing about code of their own, so nothing tests them.
#![tactic(auto)]

mod laws;

pub use laws::{
    late_frames_are_refused, secured_turns_complete_a_transfer, secured_turns_outlive_their_losses,
};
