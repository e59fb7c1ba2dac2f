//! Where the files to send lie, and where received files are staged and published: the two traits,
//! stores in memory and in folders, and stores that fail from a chosen call on.
//!
//! A received file is staged as its octets come, in any order, and is there for others once it is
//! published:
//!
//! ```text
//! let mut inbox = MemoryInbox::new(alloc);
//! inbox.begin(id)?;
//! inbox.write(id, 3, b"lo")?;
//! inbox.write(id, 0, b"hel")?;
//! inbox.publish(id, b"greeting.txt", 5)?;
//! assert_eq!(inbox.published().octets(b"greeting.txt"), b"hello");
//! ```
//!
//! Tested by `tests/transcripts/stores.txt` and `tests/rows/folders.rows`.
#![tactic(auto)]

mod catalog;
mod error;
mod files;
mod folder;
mod folder_error;
mod folder_outbox;
mod fuse;
mod inbox;
mod known;
mod laws;
mod memory;
mod name_rule;
mod no_inbox;
mod outbox;
mod part_names;
mod parts;
mod pieces;
mod resuming;
mod sources;
mod stored;

pub use error::StoreError;
pub use files::Files;
pub use folder::FolderInbox;
pub use folder_error::FolderError;
pub use folder_outbox::FolderOutbox;
pub use fuse::{FuseInbox, FuseOutbox};
pub use inbox::Inbox;
pub use laws::{
    files_that_stand_are_expected, front_is_what_stands, written_octets_cover, written_octets_stand,
};
pub use memory::{MemoryInbox, MemoryOutbox};
pub use name_rule::{NameRule, is_folder_name};
pub use no_inbox::NoInbox;
pub use outbox::{Outbox, SeekingOutbox, SteadyOutbox};
pub use part_names::{folder_of, part_name, part_path, remove_parts};
pub use resuming::ResumingInbox;
pub use stored::Stored;
