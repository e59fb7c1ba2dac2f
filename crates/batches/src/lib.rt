//! Texts of octets in batches, one after another, each with its length and a check: what a journal
//! is made of. A crash that cuts the last batch off leaves the batches before it.
//!
//! ```rust
//! let end = write_batch(&mut file, 0, text);
//! assert!(first_batch(&file[..end]) == Some(text));
//! ```
//!
//! Tested by `tests/transcripts/records.txt`, through the records of a journal.
#![tactic(auto)]

mod batch;
mod laws;

pub use batch::{HEAD_LEN, first_batch, write_batch};
pub use laws::a_cut_leaves_whole_batches;
