//! What the words after `--set` set of a station: its numbers, and by these the configuration of
//! both stations and how their frames are secured.
//!
//! A [`StationSetup`] is made of the words that a station was given. Its numbers may be out of
//! their ranges: then `config` answers nothing, and [`Misfit`] says what is wrong.
//!
//! Tested by `tests/rows/stations.rows`, `tests/rows/settings.rows` and `tests/link_settings.py`,
//! through the program above.
#![tactic(auto)]

mod hint;
mod links;
mod misfit;
mod numbers;
mod own_key;
mod securing;
mod sets;
mod station_setup;

pub use hint::{KeyHint, key_hint};
pub use links::PacketSetup;
pub use misfit::Misfit;
pub use own_key::{OwnKey, parse_own_key};
pub use securing::{SECURITY_HEADER, Securities, bare_link};
pub use sets::SetFault;
pub use station_setup::StationSetup;
