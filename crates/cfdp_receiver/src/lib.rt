//! The receiving machine of CFDP, class 2 (CCSDS 727.0-B-5, 4.6.1.2 and 4.6.4): for one
//! transaction, what its receiver does about each PDU that it hears, each timer that expires and
//! each call of its user, and what it sends next.
//!
//! ```rust
//! let address = Addressing::of(&header);
//! let (mut receiver, _) = Receiver::open(alloc, &mut effects, &mut inbox, address, false)?;
//! receiver.on_data(&mut effects, &mut inbox, &policy, false, 0, b"hello")?;
//! if receiver.due().is_some() {
//!     let len = receiver.take_pdu(&mut effects, &policy, &mut out);
//!     // The PDU is the first `len` octets of `out`.
//! }
//! ```
//!
//! Tested by `tests/transcripts/receiver.txt` and `tests/transcripts/machines.txt`.
#![tactic(auto)]

mod adopting;
mod asked;
mod due;
mod ending;
mod hearing;
mod laws;
mod missing;
mod opening;
mod receiver;
mod restoring;
mod sending;
mod staging;
mod state;
mod waiting;

pub use adopting::adopt_held;
pub use due::Due;
pub use hearing::Metadata;
pub use laws::{
    a_completion_publishes_the_put, a_file_that_comes_in_lacks_something,
    a_finished_says_what_was_indicated, a_nak_that_is_due_asks_for_something,
    a_rejection_has_a_refusal, a_transaction_is_finished_once, a_true_file_raises_no_fault,
    a_whole_file_is_published, an_opened_receiver_has_its_timers, an_opening_may_finish,
    more_is_heard, octets_held_keep_their_value, published_files_change_no_step,
    timers_are_those_waited_for, what_comes_is_kept, what_goes_well_ends_well,
    what_is_heard_true_is_kept_true,
};
pub use receiver::Receiver;
pub use restoring::CommittedReceiver;
pub use state::{Ending, FileInfo, ReceiverPhase};
