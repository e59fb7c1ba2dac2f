//! The spool of a station: a folder whose files are sent as they come there, and then moved or
//! removed.
//!
//! Tested by `tests/stations.py`, through the program above.
#![tactic(auto)]

mod folder_spool;

pub use folder_spool::{
    FolderSpool, SpoolNews, SpoolNotice, SpoolTeller, StandardErrorTeller, rule_text,
};
