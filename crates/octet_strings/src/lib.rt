//! Octet strings, one after the other in one buffer.
//!
//! A list of byte vectors takes memory for each of them. If such a list is filled and cleared again
//! and again, for example with the packets that a frame completes, use an [`OctetStrings`]: it
//! takes memory only until its buffer is as long as all of them were at once.
//!
//! ```
//! let mut strings = OctetStrings::new(alloc);
//! strings.push(&[1, 2, 3])?;
//! strings.push(&[4, 5])?;
//! strings.drop_front(0, 2);
//! assert_eq!(strings.get(0), &[3]);
//! strings.clear();
//! ```
//!
//! Tested by `tests/transcripts/zones.txt`.
#![tactic(auto)]

ghost use Rattle.std.specs.Prelude.{◌≡◌, ◌<◌, ◌≤◌, ◌+◌, ◌∷◌, ◌++◌, [], List, drop, length};
ghost use Rattle.std.specs.Prelude.{slice_index_or, slice_set, ◌↔◌, IsTrue, OnErr, OnOk};
ghost use Rattle.std.specs.List.{remove};

use std::alloc::{AllocError, Global};
use std::marker::Model;

/// The place of a string in the buffer.
#[derive(Clone, Copy, Debug)]
struct Place {
    from: usize,
    len: usize,
}

/// A list of octet strings in one buffer.
#[derive(Debug, Drop)]
pub struct OctetStrings {
    // No octet is moved: if octets are taken off a string's front, or a string is removed, they
    // stay here until no string is left.
    octets: Vec<u8>,
    places: Vec<Place>,
}

impl Model for OctetStrings {
    ghost use Rattle.std.specs.Prelude.{ℕ, List, length};
    ghost use Rattle.octet_strings.specs.Strings.{AreWithin, IsClear, strings_at};

    ghost Value = { List (List ℕ) };

    ghost view = { λ s. strings_at s.octets.items s.places.items };

    ghost invariant = { λ s. AreWithin (length s.octets.items) s.places.items
        × IsClear s.octets.items s.places.items };
}

impl OctetStrings {
    /// Returns a list of no string. It takes no memory; `alloc` serves what is added later.
    pub fn new(alloc: Global) -> Self
        ensures { result ≡ [] }
    {
        OctetStrings {
            octets: Vec::new(alloc),
            places: Vec::new(alloc),
        }
    }

    /// Returns how many strings there are.
    pub fn len(&self) -> usize
        ensures { result ≡ length self.now }
    {
        self.places.len()
    }

    /// Returns `true` if there is no string.
    pub fn is_empty(&self) -> bool
        ensures { IsTrue result ↔ (self.now ≡ []) }
    {
        self.places.is_empty()
    }

    /// Returns the string at an index, counted from 0. There must be one.
    pub fn get(&self, place: usize) -> &[u8]
        requires { place < length self.now }
        ensures { result.now ≡ slice_index_or self.now place [] }
    {
        let Place { from, len } = self.places[place];
        &self.octets[from..from + len]
    }

    /// Adds a string after the others.
    ///
    /// # Errors
    ///
    /// `AllocError` only if the memory for it was refused. Nothing changed then.
    pub fn push(&mut self, octets: &[u8]) -> Result<(), AllocError>
        ensures ok { OnOk result (self.new ≡ self.old ++ octets.now ∷ []) }
        ensures err { OnErr result (self.new ≡ self.old) }
    {
        let place = Place {
            from: self.octets.len(),
            len: octets.len(),
        };
        self.octets.extend_from_slice(octets)?;
        if let Err(refused) = self.places.push(place) {
            self.octets.truncate(place.from);
            return Err(refused.into());
        }
        Ok(())
    }

    /// Removes the string at an index, which must be there. The index of each string after it is
    /// then less by one.
    pub fn remove(&mut self, place: usize)
        requires { place < length self.old }
        ensures { self.new ≡ remove self.old place }
    {
        self.places.remove(place);
        if self.places.is_empty() {
            self.octets.clear();
        }
    }

    /// Removes so many octets from the front of a string, or all if it has fewer.
    pub fn drop_front(&mut self, place: usize, count: usize)
        requires { place < length self.old }
        ensures { self.new ≡ slice_set self.old place
            (drop count (slice_index_or self.old place [])) }
    {
        let it = &mut self.places[place];
        let count = count.min(it.len);
        it.from += count;
        it.len -= count;
    }

    /// Removes all strings. The memory is kept for others.
    pub fn clear(&mut self)
        ensures { self.new ≡ [] }
    {
        self.places.clear();
        self.octets.clear();
    }
}
