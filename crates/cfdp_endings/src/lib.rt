//! What is open ends, complete or by its limits, and never in silence, even if the peer answers
//! no more: laws of both machines, of a table of records, and of an entity.
//!
//! Tested by `lonely.rows` in `tests/rows/`.
#![tactic(auto)]

mod laws;

pub use laws::{
    a_receiver_ends_by_its_limits, a_receiver_is_never_silent, a_sender_ends_by_its_limits,
    a_sender_is_never_silent, an_entity_alone_ends, an_entity_is_never_silent, polls_come_to_rest,
};
