ghost use Rattle.std.specs.Prelude.{◌≡◌, ℕ, ◌+◌, ◌*◌, ◌/◌, ◌%◌, ◌^◌, ◌≤◌, ◌<◌, List, length, slice_index, sum_by};
ghost use Rattle.cfdp_directives.specs.Pdu.Checksum.{sum_at, modular_checksum, added, lane_sum};

use std::marker::Model;
use std::simd::prelude::*;

/// The modular checksum of what was added so far (CCSDS 727.0-B-5, 4.2.2). Pieces of a file may
/// come in any order, each octet once. Contracts see it as its number.
#[derive(Clone, Copy, Debug, PartialEq, Eq)]
pub struct Checksum {
    sum: u32,
}

impl Model for Checksum {
    ghost Value = { ℕ };

    ghost view = { λ c. c.sum };

    ghost inverse = { λ n. record { sum = n } };
}

impl Checksum {
    /// Returns the checksum of no octets, which is 0.
    pub fn new() -> Checksum
        ensures { result ≡ 0 }
    {
        Checksum { sum: 0 }
    }

    /// Adds a piece of the file: octets, the first of them at this offset.
    pub fn add(&mut self, offset: u64, bytes: &[u8])
        ensures { self.new ≡ added self.old (record { offset = offset; bytes = bytes.now }) }
    {
        self.sum = sum_with(self.sum, offset, bytes);
    }

    /// Returns the checksum, as an EOF carries it.
    pub fn value(&self) -> u32
        ensures { result ≡ self.now }
    {
        self.sum
    }
}

// Returns the sum with the octets up to the first whole word of the file, and those after them.
#[tactic(auto, using(crate::proofs::Sums::from_a_word))]
fn sum_with(old: u32, offset: u64, bytes: &[u8]) -> u32
    ensures { result ≡ (old + sum_at offset bytes.now) % 2 ^ 32 }
{
    let before = ((4 - offset % 4) % 4) as usize;
    let (first, rest) = bytes.split_at(before.min(bytes.len()));
    let sum = sum_octets(old, offset, first);
    sum_whole(sum, rest)
}

// Returns the sum with octets that begin with a word. Few of them are summed faster as words.
#[tactic(auto, using(crate::proofs::Sums::by_blocks))]
fn sum_whole(old: u32, bytes: &[u8]) -> u32
    ensures { result ≡ (old + sum_at 0 bytes.now) % 2 ^ 32 }
{
    if bytes.len() < 256 {
        return sum_few(old, bytes);
    }
    let (blocks, rest) = bytes.as_chunks::<16>();
    let sum = sum_runs(old, blocks);
    sum_few(sum, rest)
}

#[tactic(auto, using(crate::proofs::Sums::by_words))]
fn sum_few(old: u32, bytes: &[u8]) -> u32
    ensures { result ≡ (old + sum_at 0 bytes.now) % 2 ^ 32 }
{
    let (words, rest) = bytes.as_chunks::<4>();
    let sum = sum_words(old, words);
    sum_octets(sum, 0, rest)
}

#[tactic(auto, using(crate::proofs::Sums::one_more, crate::proofs::Sums::none))]
fn sum_octets(old: u32, offset: u64, bytes: &[u8]) -> u32
    ensures { result ≡ (old + sum_at offset bytes.now) % 2 ^ 32 }
{
    let mut sum = old;
    let mut place = (offset % 4) as u32;
    for b in bytes {
        sum = sum.wrapping_add(u32::from(*b) << (8 * (3 - place)));
        place = (place + 1) % 4;
    }
    sum
}

fn sum_words(old: u32, words: &[[u8; 4]]) -> u32
    ensures { result ≡ (old + sum_by (λ word. sum_at 0 word) words.now) % 2 ^ 32 }
{
    let mut sum = old;
    for word in words {
        sum = sum.wrapping_add(u32::from_be_bytes(*word));
    }
    sum
}

// Returns the sum with blocks, as many at once as a lane can sum.
fn sum_runs(old: u32, blocks: &[[u8; 16]]) -> u32
    ensures { result ≡ (old + sum_by (λ block. sum_at 0 block) blocks.now) % 2 ^ 32 }
{
    let mut sum = old;
    let mut at = 0;
    while at < blocks.len() {
        let end = (at + 256).min(blocks.len());
        sum = sum_blocks(sum, &blocks[at..end]);
        at = end;
    }
    sum
}

// Returns the sum with blocks that lanes of sixteen bits can sum. A block fills eight lanes with two
// octets each. `odd` sums the upper octets of a lane, which are at odd indices: at most 255 * 256,
// which is below 2^16. `all` sums the lane modulo 2^16. The lower octets sum to the difference.
fn sum_blocks(old: u32, blocks: &[[u8; 16]]) -> u32
    requires { length blocks.now ≤ 256 }
    ensures { result ≡ (old + sum_by (λ block. sum_at 0 block) blocks.now) % 2 ^ 32 }
{
    let mut all = u16x8::splat(0);
    let mut odd = u16x8::splat(0);
    for block in blocks {
        let lanes = lanes_of(u8x16::from_array(*block));
        all = plus(all, lanes);
        odd = plus(odd, high(lanes));
    }
    let even = less(all, odd);
    sum_lanes(old, &even.to_array(), &odd.to_array())
}

// Returns the lanes of a block. The first of two octets is the lower one.
#[inline(always)]
fn lanes_of(block: u8x16) -> u16x8
    ensures { (j : ℕ) → j < 8 → (slice_index result j
        ≡ slice_index block (2 * j) + 256 * slice_index block (2 * j + 1))
        × (slice_index block (2 * j) < 256) × (slice_index block (2 * j + 1) < 256) }
{
    u16x8::from_le_bytes(block)
}

// Returns the sum of each two lanes, modulo 2^16.
#[inline(always)]
fn plus(a: u16x8, b: u16x8) -> u16x8
    ensures { (j : ℕ) → j < 8
        → slice_index result j ≡ (slice_index a j + slice_index b j) % 2 ^ 16 }
{
    a + b
}

// Returns the upper octet of each lane.
#[inline(always)]
fn high(lanes: u16x8) -> u16x8
    ensures { (j : ℕ) → j < 8 → slice_index result j ≡ slice_index lanes j / 256 }
{
    lanes >> u16x8::splat(8)
}

// Returns the sums of the lower octets, of the sums of the lanes and of their upper octets.
#[inline(always)]
fn less(all: u16x8, odd: u16x8) -> u16x8
    ensures { (j : ℕ) → j < 8 → ((slice_index result j + 256 * slice_index odd j) % 2 ^ 16
        ≡ slice_index all j) × (slice_index result j < 2 ^ 16) }
{
    all - odd * u16x8::splat(256)
}

// Returns the sum with what lanes have summed: each two lanes are one word.
fn sum_lanes(old: u32, even: &[u16; 8], odd: &[u16; 8]) -> u32
    ensures { result ≡ (old + lane_sum even.now odd.now 0 + lane_sum even.now odd.now 2
        + lane_sum even.now odd.now 4 + lane_sum even.now odd.now 6) % 2 ^ 32 }
{
    old.wrapping_add(lanes_at(even, odd, 0))
        .wrapping_add(lanes_at(even, odd, 2))
        .wrapping_add(lanes_at(even, odd, 4))
        .wrapping_add(lanes_at(even, odd, 6))
}

fn lanes_at(even: &[u16; 8], odd: &[u16; 8], at: usize) -> u32
    requires { at < 7 }
    ensures { result ≡ lane_sum even.now odd.now at % 2 ^ 32 }
{
    (u32::from(even[at]) << 24)
        .wrapping_add(u32::from(odd[at]) << 16)
        .wrapping_add(u32::from(even[at + 1]) << 8)
        .wrapping_add(u32::from(odd[at + 1]))
}

/// A law: a whole file, added at once at offset 0, gives its modular checksum.
pub fn whole_file_has_its_checksum()
    ensures { (file : List ℕ) → added 0 (record { offset = 0; bytes = file })
        ≡ modular_checksum file }
{}
