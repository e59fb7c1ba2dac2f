//! What a station has of the folders and files of its machine: the folder that it receives into
//! and the files in it, locks, and the file of the numbers that it reserved.
//!
//! Tested by `tests/rows/stations.rows` and `tests/stations.py`, through the program above.
#![tactic(auto)]

mod held_folder;
mod inbox_files;
mod least_number;
mod locks;
mod made_files;
mod plain_file;
mod reserving;
mod secret_file;
mod state_file;
mod state_text;
mod trial;

pub use held_folder::HeldFolder;
pub use inbox_files::InboxFiles;
pub use locks::{LockError, LockedFile, lock};
pub use plain_file::{Use, is_same_folder, lies_in, open_plain};
pub use secret_file::{SecretError, read_keys, read_secret};
pub use state_file::{Reservation, StateError, Wanted};
pub use trial::{TrialError, try_folder};
