//! Sets of numbers, kept as the ranges that they are made of: the received offsets of a file with
//! the gaps between them, and the transactions that an entity forgot.
//!
//! ```rust
//! let mut held = Extents::new(alloc);
//! held.insert(0, 4096)?;
//! held.insert(8192, 12288)?;
//! for (start, end) in held.missing(12288) {
//!     // One gap: from 4096 up to, and without, 8192.
//! }
//! ```
//!
//! ```rust
//! let mut forgotten = Forgotten::new(alloc);
//! forgotten.insert(id)?;
//! assert!(forgotten.contains(id));
//! ```
//!
//! Tested by `tests/transcripts/ranges.txt` and, through the entity, by
//! `tests/transcripts/forgetting.txt`.
#![tactic(auto)]

mod extents;
mod forgotten;
mod gaps;
mod laws;
mod number_laws;
mod numbers;
mod ranges;
mod search;
mod whole;

pub use extents::Extents;
pub use forgotten::Forgotten;
pub use gaps::Gaps;
pub use laws::{
    a_limit_admits_what_follows, a_set_has_one_list_of_ranges, a_set_is_what_it_holds,
    the_end_is_one_past_the_last, the_front_is_the_first_range, the_gaps_are_those_ranges,
};
pub use number_laws::ranges_are_few;
pub use numbers::Numbers;
pub use ranges::Ranges;
