//! A wire whose frames are secured: what a station receives over it was sent by its peer, in the
//! same order and at most once, whatever the network does and whoever else sends datagrams. Use it
//! if others can send datagrams to a station.
//!
//! It stands between a port and any other wire. The station of the port makes and takes bare
//! frames, so its links must have no fields; the fields of the link are made here.
//!
//! ```text
//! let wire = SecuredWire::new(alloc, udp, keeper, sealer, opener, frame_len)?;
//! let mut port = Port::new(alloc, Side::One, config, (outbox, inbox), wire)?;
//! ```
//!
//! What isn't protected is in the head of [`frame_security`]: nothing is encrypted, and frames can
//! be lost. What stations over such wires are promised are the laws of the crate `secured_link`.
//!
//! Tested by `tests/rows/keys.rows` and `tests/keys.py`, through the program above.
#![tactic(auto)]

mod keeper;
mod secured_wire;

pub use keeper::{Keeper, NoKeeper};
pub use secured_wire::SecuredWire;
