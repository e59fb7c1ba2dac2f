//! The file of the keys of a station: which key it sends with, and which keys it receives with.
//!
//! ```text
//! # SPI  direction  key (32 octets, hexadecimal)
//! 17     send       5f2c..
//! 18     receive    9a01..
//! 16     receive    77d0..   # the former key, while the peer changes
//! ```
//!
//! Tested by `tests/rows/keys.rows`, through the program above.
#![tactic(auto)]

mod draft;
mod fault;
mod lines;

pub use fault::{KeyFileError, KeyLineFault};
pub use lines::parse;
