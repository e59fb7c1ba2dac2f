//! No code; laws of both machines and of an entity that are restored after their station was
//! killed: which states they may have then, and that these are as sound as the states before.
//!
//! These laws say nothing about code of their own, so nothing tests them. The program doesn't
//! resume yet.
#![tactic(auto)]

mod laws;

pub use laws::{
    a_committed_entity_resumes, a_committed_receiver_comes_back,
    a_restored_receiver_knows_the_truth, a_restored_sender_sends_its_put,
    a_restored_sender_was_committed, a_resumed_entity_is_sound, an_entity_may_resume_as_it_was,
    an_entity_whose_records_are_restored_resumes, records_come_to_something_later,
    what_comes_back_is_true, what_is_read_anew_is_summed,
};
