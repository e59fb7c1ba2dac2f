//! What a transfer outlives of a link that loses frames: laws.
//!
//! Tested by `tests/rows/outages.rows`: scripts on either side of what it promises.
#![tactic(auto)]

mod laws;

pub use laws::{
    a_transfer_outlives_its_losses, rounds_of_a_recovery_get_through, three_tries_last_thirty_units,
};
