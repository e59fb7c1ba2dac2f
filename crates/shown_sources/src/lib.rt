//! What a station does with the files that it sends: it asks how long each is, and reads octets of
//! them. So if other files are as long, and the same octets of them are read, it does the same.
//!
//! Tested by nothing: what it promises is proved.
#![tactic(auto)]

mod laws;

pub use laws::only_what_is_read_of_files_counts;
