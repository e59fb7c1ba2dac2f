//! The sending side of a transaction of CFDP, class 2 (CCSDS 727.0-B-5, 4.6.1.1 and 4.6.4): what is
//! sent of a file, what is sent again, and how the transaction ends.
//!
//! ```text
//! let mut sender = Sender::open(alloc, &mut effects, transfer)?;
//! while let Some(octets) = sender.due() {
//!     // Writes that many octets into `out`: Metadata, then the file, then EOF.
//!     sender.take_pdu(&mut effects, &mut outbox, &policy, &mut out);
//! }
//! // An ACK of EOF was heard; Finished will follow.
//! sender.on_ack(&mut effects, &policy, condition);
//! ```
//!
//! Tested by `sender.txt`, `machines.txt` and `large.txt` in `tests/transcripts/`.
#![tactic(auto)]

mod calls;
mod due;
mod expiry;
mod front;
mod hearing;
mod laws;
mod names;
mod phase;
mod restoring;
mod sender;
mod taken;
mod taking;
mod transfer;

pub use due::SenderDue;
pub use front::sums_of_front;
pub use laws::{
    a_closed_sender_rests, a_sender_finishes_once, a_sender_keeps_what_it_sends,
    a_sender_says_what_is_so, a_sender_waits_with_armed_timers,
    a_source_fault_comes_of_a_failed_read, an_eof_has_the_checksum_of_what_was_sent,
    told_complete_by_a_finished_alone, what_is_due_is_in_the_file,
};
pub use phase::SenderPhase;
pub use restoring::CommittedSender;
pub use sender::Sender;
pub use taken::Taken;
pub use transfer::{MOST_SEGMENT, Transfer};
