//! What the commands that transfer files between folders (`loop`, `station`) share.

pub mod named_files;
pub mod secured_links;
