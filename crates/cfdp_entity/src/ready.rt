ghost use Rattle.std.specs.Prelude.{◌≡◌, ◌≢◌, ◌+◌, ◌-◌, ◌++◌, ◌∷◌, ◌<◌, ◌≤◌, ℕ, [], None, cond};
ghost use Rattle.std.specs.Prelude.{drop, false, get_or, length, position, remove, take, IfSome};
ghost use Rattle.std.specs.Prelude.{IfOk, slice_set};
ghost use Rattle.std.specs.Int.{bit_at};
ghost use Rattle.std.specs.Option.{option_map};
ghost use Rattle.cfdp_entity.specs.Ready.{next_true};

use std::alloc::{AllocError, Global};
use std::marker::Model;

const BITS: usize = 64;

/// The indices that have something due, of at most 4,096. All its memory is taken at the start.
#[derive(Drop)]
pub struct Ready {
    len: usize,
    // A bit for each of 64 indices. If an index isn't there, its bit must be clear.
    words: Vec<u64>,
    // A bit for each word: set if the word has one that is set.
    some: u64,
}

impl Model for Ready {
    ghost use Rattle.std.specs.Prelude.{Bool, List};
    ghost use Rattle.cfdp_entity.specs.Ready.{flags_in, IsIndexed};

    ghost Value = { List Bool };

    ghost view = { λ m. flags_in m.len m.words.items };

    ghost invariant = { λ m. IsIndexed m.len m.words.items m.some };
}

impl Ready {
    pub fn new(alloc: Global) -> Result<Self, AllocError>
        ensures { IfOk result (λ r. r ≡ []) }
    {
        let words = Vec::from_array(alloc, [0; BITS])?;
        Ok(Ready {
            len: 0,
            words,
            some: 0,
        })
    }

    pub fn push(&mut self, due: bool)
        requires room { length self.old < 4096 }
        ensures { self.new ≡ self.old ++ due ∷ [] }
    {
        let place = self.len;
        self.len += 1;
        self.set(place, due);
    }

    pub fn set(&mut self, place: usize, due: bool)
        requires within { place < length self.old }
        ensures { self.new ≡ slice_set self.old place due }
    {
        let word = place / BITS;
        let flags = with_bit(self.words[word], place % BITS, due);
        self.words[word] = flags;
        self.some = with_bit(self.some, word, flags != 0);
    }

    fn len(&self) -> usize
        ensures len { result ≡ length self.now }
        ensures few { result ≤ 4096 }
    {
        self.len
    }

    /// Removes an index: those after it move up.
    pub fn remove(&mut self, place: usize)
        requires within { place < length self.old }
        ensures { self.new ≡ remove self.old place }
    {
        let last = self.len() - 1;
        for to in place..last {
            let due = self.is_set(to + 1);
            self.set(to, due);
        }
        self.set(last, false);
        self.shorten();
    }

    // Returns `true` if an index has something due.
    fn is_set(&self, place: usize) -> bool
        requires within { place < length self.now }
        ensures { result ≡ get_or self.now place false }
    {
        match first_bit(self.words[place / BITS], place % BITS) {
            Some(bit) => bit == place % BITS,
            None => false,
        }
    }

    // Removes the last index, which must have nothing due.
    fn shorten(&mut self)
        requires some { 0 < length self.old }
        requires clear { get_or self.old (length self.old - 1) false ≡ false }
        ensures { self.new ≡ take (length self.old - 1) self.old }
    {
        self.len -= 1;
    }

    /// Returns the first index from one on that has something due, otherwise the first of all.
    pub fn next(&self, from: usize) -> Option<usize>
        ensures next { result ≡ next_true from self.now }
        ensures within { IfSome result (λ place. place < length self.now) }
    {
        match self.first_from(from) {
            Some(place) => Some(place),
            None => self.first_from(0),
        }
    }

    // Returns the first index from one on that is set: in its own word, otherwise in the next one
    // that has any.
    fn first_from(&self, from: usize) -> Option<usize>
        ensures first { result
            ≡ option_map (λ i. from + i) (position (λ b. b) (drop from self.now)) }
        ensures within { IfSome result (λ place. place < length self.now) }
    {
        if self.some == 0 {
            return None;
        }
        if self.len <= from {
            return None;
        }
        let word = from / BITS;
        if let Some(bit) = first_bit(self.words[word], from % BITS) {
            return Some(BITS * word + bit);
        }
        match first_bit(self.some, word + 1) {
            Some(next) => Some(BITS * next + lowest_bit(self.words[next])),
            None => None,
        }
    }
}

// Returns the word with one bit set or cleared.
fn with_bit(word: u64, bit: usize, on: bool) -> u64
    requires { bit < 64 }
    ensures here { bit_at result bit ≡ cond on 1 0 }
    ensures others { (i : ℕ) → i < 64 → i ≢ bit → bit_at result i ≡ bit_at word i }
{
    if on {
        word | (1 << bit)
    } else {
        word & !(1 << bit)
    }
}

// Returns the lowest bit that is set.
fn lowest_bit(word: u64) -> usize
    requires { 0 < word }
    ensures within { result < 64 }
    ensures here { bit_at word result ≡ 1 }
    ensures before { (i : ℕ) → i < result → bit_at word i ≡ 0 }
{
    word.trailing_zeros() as usize
}

// Returns the first bit from one on that is set.
fn first_bit(word: u64, from: usize) -> Option<usize>
    ensures within { IfSome result (λ bit. (from ≤ bit) × (bit < 64)) }
    ensures here { IfSome result (λ bit. bit_at word bit ≡ 1) }
    ensures before { IfSome result (λ bit. (i : ℕ) → from ≤ i → i < bit → bit_at word i ≡ 0) }
    ensures none { result ≡ None → (i : ℕ) → from ≤ i → i < 64 → bit_at word i ≡ 0 }
{
    if BITS <= from {
        return None;
    }
    let rest = word >> from;
    if rest == 0 {
        None
    } else {
        Some(from + lowest_bit(rest))
    }
}
