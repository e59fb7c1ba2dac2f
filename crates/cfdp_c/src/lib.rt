//! The stack for programs in C, C++ and Rust: a station behind a handle, with its stores in memory
//! or in folders, and what a PDU says, behind plain C functions.
//!
//! No part of the protocol stands here. Each function tests what its caller gave, calls the
//! station, and puts the answer into a number or a plain struct; its contract is the station's own
//! clause, of what the handle has. `bindings/c/cfdp.h` says what a caller must do.
//!
//! Tested by `tests/bindings.py`.
#![tactic(auto)]

mod bad_field;
mod calls;
mod codes;
mod config;
mod control;
mod counters;
mod decoding;
mod files;
mod forgetting;
mod frames;
mod handle;
mod held;
mod indications;
mod journal_place;
mod journaling;
mod looking;
mod noting_inbox;
mod parts;
mod requests;
mod resuming;
mod room;
mod securing;
mod station_slot;
mod version;

pub use calls::{CfdpId, cfdp_add, cfdp_next_timeout, cfdp_put, cfdp_remove_source, cfdp_tick};
pub use config::{CfdpConfig, CfdpLink, cfdp_fill_defaults};
pub use control::{cfdp_control_field, cfdp_set_control_field};
pub use counters::{CfdpCounters, CfdpFrameDrops, CfdpPduDrops, CfdpSentPdus, cfdp_counters};
pub use decoding::{CfdpPdu, cfdp_decode};
pub use files::{CfdpFile, cfdp_file, cfdp_file_count, cfdp_read_file, cfdp_remove_file};
pub use forgetting::{cfdp_forget, cfdp_forget_closed, cfdp_was_forgotten};
pub use frames::{
    cfdp_flush, cfdp_frame_len, cfdp_frames_ahead, cfdp_next_frame, cfdp_poll, cfdp_receive,
    cfdp_transmit,
};
pub use handle::{
    CfdpStation, cfdp_close, cfdp_open, cfdp_open_folders, cfdp_open_folders_journal,
};
pub use indications::{CfdpIndication, cfdp_next_indication};
pub use journaling::{CfdpJournal, cfdp_journal_state, cfdp_next_unheard};
pub use looking::{CfdpTransaction, cfdp_records_left, cfdp_transactions};
pub use requests::{cfdp_cancel, cfdp_prompt, cfdp_resume, cfdp_suspend};
pub use securing::{CfdpSecurity, cfdp_open_frame, cfdp_seal_frame};
pub use version::cfdp_version;
