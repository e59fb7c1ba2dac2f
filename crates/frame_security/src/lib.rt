//! Frames that only the holder of a key can have sent: the security header and trailer of CCSDS
//! 355.0-B-2 (Space Data Link Security) in AOS frames, with a sequence number of 8 octets and a MAC
//! of HMAC-SHA-256 (CCSDS 352.0-B). Use it if others can send datagrams to a station.
//!
//! It is a layer between the bare frames of a station and the frames of the link, so the station
//! needs no change. A frame of the link is
//!
//! ```text
//! header | insert zone | SPI, number | M_PDU | MAC | control field | error control
//! ```
//!
//! ```text
//! sealer.seal(&bare, control, &mut frame)?;
//!
//! match opener.open(&frame) {
//!     Ok(opened) => {} // the bare frame: `opened.header`, and `opened.mpdu` after it
//!     Err(refusal) => {} // it was counted, and nothing else changed
//! }
//! ```
//!
//! An opener accepts a frame only if its MAC is right under a key that the opener has, and its
//! sequence number is greater than the last one. So what it accepts was sealed by a holder of the
//! key, in this order, and nothing is accepted twice ([`only_what_was_sealed_is_taken`]).
//!
//! # What isn't protected
//!
//! - **Nothing is encrypted**: anybody on the way can read names and contents of files.
//! - **The operational control field and the insert zone are not authenticated**: the standard puts
//!   the control field after the trailer, and masks the insert zone. Anybody can alter them.
//! - Frames can be lost, and so delayed for ever.
//!
//! # What users must see to
//!
//! - The keys of the two directions must differ, and no two links may share a key. Otherwise a
//!   frame could be sent back to the station that sealed it, whose MAC is right.
//! - Sequence numbers must go on over restarts ([`Sealer::new`], [`Opener::new`]).
//! - Keys stay in memory until the memory is used again. No type here prints a key: those that have
//!   one have no `Debug`. MACs are compared octet by octet to the end ([`hmac::are_same`]); nothing
//!   is proved of time.
//!
//! None of the calls allocates memory.
//!
//! Tested by its own tests: a frame that another program made, and a table of refused frames.
#![tactic(auto)]

mod config;
mod keys;
mod laws;
mod opening;
mod sealing;
#[cfg(test)]
mod tests;

pub use config::{Security, SecurityField};
pub use keys::{LinkKeys, NamedKey};
pub use laws::{
    only_what_was_sealed_is_taken, refused_octets_change_nothing, what_is_sealed_is_opened,
};
pub use opening::{AcceptedFrame, FrameRefusal, Opener, Refused};
pub use sealing::{NumbersSpent, Sealer};
