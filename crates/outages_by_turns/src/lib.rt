//! What a transfer of two ports outlives of wires that lose frames, turn by turn: laws.
//!
//! These laws say nothing about code of their own, so nothing tests them.
#![tactic(auto)]

mod laws;

pub use laws::{numbered_turns_are_turns, turns_complete_a_transfer, turns_outlive_their_losses};
