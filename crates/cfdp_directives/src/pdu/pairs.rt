ghost use Rattle.std.specs.Prelude.{◌≡◌, ℕ, ◌+◌, ◌==◌, ◌*◌, ◌/◌, ◌%◌, ◌<◌, ◌≤◌, ◌++◌, [], ◌∷◌};
ghost use Rattle.std.specs.Prelude.{false, length, take, drop, is_some, IsTrue, ◌↔◌, nat_eq};
ghost use Rattle.std.specs.Prelude.{IfSome, IfNone};
ghost use Rattle.std.specs.Cmp.{partial_equiv_from_equiv};
ghost use Rattle.std.specs.Cmp.Lexicographic.{on_texts_equal, pointwise};
ghost use Rattle.std.specs.Ordering.{on};
ghost use Rattle.std.specs.List.{flat_map, AllByRecursion};
ghost use Rattle.cfdp_directives.specs.Pdu.Codes.{file_size_octets};
ghost use Rattle.cfdp_directives.specs.Pdu.Pair as specified;
ghost use Rattle.cfdp_directives.specs.Pdu.Pair.{pair, pairs_read, ArePairs, IsPair, numbers};
ghost use Rattle.cfdp_directives.specs.Pdu.Pair.{pairs_in, IsWhole};

use crate::pdu::file_size::{file_size_octets, is_file_size, put_file_size, read_file_size};
use crate::pdu::pair_iter::PairIter;
use cfd_bits::put_bytes;
use std::marker::Model;

/// Returns the number of octets of a pair, which depend on whether the file is large.
#[inline]
fn pair_octets(large: bool) -> usize
    ensures value { result ≡ specified.pair_octets large }
    ensures some { 1 ≤ result }
    ensures most { result ≤ 16 }
{
    2 * file_size_octets(large)
}

/// Where pairs lie.
#[derive(Clone, Copy, Debug)]
enum Form<'a> {
    /// In octets that were read, which they fill.
    Small(&'a [u8]),
    /// In octets that were read, of a large file.
    Large(&'a [u8]),
    /// As numbers.
    Given(&'a [(u64, u64)]),
}

/// The requested ranges of a NAK (CCSDS 727.0-B-5, 5.2.6): pairs of offsets, each the start of a
/// range and its end. If the NAK was read, they lie in its octets. Contracts see them as a list.
#[derive(Debug, Drop)]
pub struct SegmentRequests<'a> {
    form: Form<'a>,
}

impl<'a> Model for SegmentRequests<'a> {
    ghost use Rattle.std.specs.Prelude.{List, ℕ};
    ghost use Rattle.cfdp_directives.specs.Pdu.Pair.{pairs_in, IsWhole};

    ghost Value = { List (ℕ × ℕ) };

    ghost view = { λ p. pairs_in p.form };

    ghost invariant = { λ p. IsWhole p.form };
}

impl<'a> SegmentRequests<'a> {
    /// Returns ranges with these starts and ends. If they are written, each number must fit a
    /// file-size field.
    pub fn of(pairs: &'a [(u64, u64)]) -> Self
        ensures { result ≡ pairs.now }
    {
        SegmentRequests {
            form: Form::Given(pairs),
        }
    }

    /// Returns the pairs that fill the octets, if some do. The file is large or it isn't.
    #[tactic(auto, using(crate::proofs::Ranges::pairs_spelled))]
    pub(crate) fn read(large: bool, octets: &'a [u8]) -> Option<Self>
        ensures found { IfSome result (λ ps. ArePairs (file_size_octets large) ps octets.now) }
        ensures none { is_some result
            ≡ (length octets.now % specified.pair_octets large == 0) }
    {
        if octets.len() % pair_octets(large) == 0 {
            Some(SegmentRequests::filling(large, octets))
        } else {
            None
        }
    }

    /// Returns the pairs that fill the octets.
    fn filling(large: bool, octets: &'a [u8]) -> Self
        requires { length octets.now % specified.pair_octets large ≡ 0 }
        ensures { result ≡ pairs_read large octets.now }
    {
        SegmentRequests {
            form: if large {
                Form::Large(octets)
            } else {
                Form::Small(octets)
            },
        }
    }

    /// Returns how many ranges there are.
    pub fn len(&self) -> usize
        ensures { result ≡ length self.now }
    {
        match self.form {
            Form::Small(octets) => count_read(false, octets),
            Form::Large(octets) => count_read(true, octets),
            Form::Given(pairs) => pairs.len(),
        }
    }

    /// Returns the start and the end of the first range, and the pairs after it; `None` if there is
    /// none.
    pub fn split_first(&self) -> Option<(u64, u64, SegmentRequests<'a>)>
        ensures some { IfSome result (λ x. self.now ≡ (x.0, x.1) ∷ x.2) }
        ensures none { IfNone result (self.now ≡ []) }
    {
        match self.form {
            Form::Small(octets) => split_read(false, octets),
            Form::Large(octets) => split_read(true, octets),
            Form::Given([]) => None,
            Form::Given([(start, end), rest @ ..]) => Some((
                *start,
                *end,
                SegmentRequests::of(rest),
            )),
        }
    }

    /// Returns the start and the end of the range at an index, from 0 on.
    pub(crate) fn at(&self, place: usize) -> (u64, u64)
        requires { place < length self.now }
        ensures { drop place self.now ≡ result ∷ drop (place + 1) self.now }
    {
        match self.form {
            Form::Small(octets) => pair_read(false, octets, place),
            _ => pair_elsewhere(self.form, place),
        }
    }

    /// Returns the pairs one by one.
    pub fn iter(&self) -> PairIter<'a>
        ensures { result ≡ self.now }
    {
        PairIter::over(SegmentRequests { form: self.form })
    }

    /// Returns `true` if they can be written: each number must fit a file-size field. If they were
    /// read of a NAK, they fit if they are written as they were read.
    pub fn fit(&self, large: bool) -> bool
        ensures { IsTrue result ↔ AllByRecursion (IsPair (file_size_octets large)) self.now }
    {
        match self.form {
            Form::Small(octets) => read_pairs_fit(false, octets, large),
            Form::Large(octets) => read_pairs_fit(true, octets, large),
            Form::Given(pairs) => are_file_sizes(large, pairs),
        }
    }

    /// Writes the pairs from octet `at` on, and returns where they end. The octets before and after
    /// them stay as they were.
    pub(crate) fn put(&self, out: &mut [u8], at: usize, large: bool) -> usize
        requires fits { AllByRecursion (IsPair (file_size_octets large)) self.now }
        requires room { at + specified.pair_octets large * length self.now ≤ length out.old }
        ensures end { result ≡ at + specified.pair_octets large * length self.now }
        ensures front { take result out.new
            ≡ take at out.old ++ flat_map (pair (file_size_octets large)) self.now }
        ensures behind { drop result out.new ≡ drop result out.old }
    {
        let out = &mut out[..at + pair_octets(large) * self.len()];
        match self.form {
            Form::Small(octets) => put_pairs_read(out, at, large, false, octets),
            Form::Large(octets) => put_pairs_read(out, at, large, true, octets),
            Form::Given(pairs) => put_pairs(out, at, large, pairs),
        }
    }
}

impl PartialEq for SegmentRequests<'_> {
    ghost eq = { on numbers (pointwise nat_eq) };

    ghost laws = { partial_equiv_from_equiv (on_texts_equal numbers) };

    fn eq(&self, other: &Self) -> bool {
        are_same(self.iter(), other.iter())
    }
}

impl Eq for SegmentRequests<'_> {
    ghost laws = { on_texts_equal numbers };
}

impl<'a> IntoIterator for &SegmentRequests<'a> {
    type Item = (u64, u64);

    type IntoIter = PairIter<'a>;

    ghost into_iter_gives = { λ pairs iter. iter ≡ pairs.now };

    fn into_iter(self) -> PairIter<'a> {
        self.iter()
    }
}

/// Returns `true` if the pairs that are left are the same.
fn are_same(mut one: PairIter<'_>, mut other: PairIter<'_>) -> bool
    ensures { result ≡ pointwise nat_eq (numbers one.entry) (numbers other.entry) }
{
    while let Some((start, end)) = one.next() {
        let Some((other_start, other_end)) = other.next() else {
            return false;
        };
        if start != other_start || end != other_end {
            return false;
        }
    }
    other.next().is_none()
}

/// Returns how many pairs fill the octets.
#[inline(always)]
#[tactic(auto, using(crate::proofs::Ranges::pairs_count))]
fn count_read(large: bool, octets: &[u8]) -> usize
    ensures { result ≡ length (pairs_read large octets.now) }
{
    octets.len() / pair_octets(large)
}

/// Returns the start and the end of the first of the pairs that fill the octets, and the octets of
/// the others.
#[tactic(auto, using(crate::proofs::Ranges::first_pair, crate::proofs::Ranges::no_pair, crate::proofs::Options::field_behind))]
fn split_read(large: bool, octets: &[u8]) -> Option<(u64, u64, SegmentRequests<'_>)>
    requires { length octets.now % specified.pair_octets large ≡ 0 }
    ensures some { IfSome result (λ x. pairs_read large octets.now ≡ (x.0, x.1) ∷ x.2) }
    ensures none { IfNone result (pairs_read large octets.now ≡ []) }
{
    if octets.is_empty() {
        return None;
    }
    let (_, end) = octets.split_at(file_size_octets(large));
    let (_, rest) = octets.split_at(pair_octets(large));
    Some((
        read_file_size(large, octets),
        read_file_size(large, end),
        SegmentRequests::filling(large, rest),
    ))
}

/// Returns the pair at an index in octets that pairs fill.
#[inline(always)]
#[tactic(auto, using(crate::proofs::Ranges::pair_at, crate::proofs::Ranges::pairs_count))]
fn pair_read(large: bool, octets: &[u8], place: usize) -> (u64, u64)
    requires { place < length (pairs_read large octets.now) }
    ensures { drop place (pairs_read large octets.now)
        ≡ result ∷ drop (place + 1) (pairs_read large octets.now) }
{
    let (_, start) = octets.split_at(pair_octets(large) * place);
    let (_, end) = start.split_at(file_size_octets(large));
    (read_file_size(large, start), read_file_size(large, end))
}

/// Returns the pair at an index, wherever the pairs lie. It is a function of its own, so that a
/// loop over the pairs of a small file that was read tests that once.
#[inline(never)]
fn pair_elsewhere(form: Form<'_>, place: usize) -> (u64, u64)
    requires whole { IsWhole form }
    requires within { place < length (pairs_in form) }
    ensures { drop place (pairs_in form.entry)
        ≡ result ∷ drop (place + 1) (pairs_in form.entry) }
{
    match form {
        Form::Small(octets) => pair_read(false, octets, place),
        Form::Large(octets) => pair_read(true, octets, place),
        Form::Given(pairs) => pair_given(pairs, place),
    }
}

/// Returns the pair at an index.
#[tactic(auto, using(crate::proofs::Ranges::pair_given))]
fn pair_given(pairs: &[(u64, u64)], place: usize) -> (u64, u64)
    requires { place < length pairs.now }
    ensures { drop place pairs.now ≡ result ∷ drop (place + 1) pairs.now }
{
    pairs[place]
}

/// Returns the octets. Pairs must fill them.
#[tactic(auto, using(crate::proofs::Ranges::pairs_whole))]
fn as_pairs(large: bool, octets: &[u8]) -> &[u8]
    requires { length octets.now % specified.pair_octets large ≡ 0 }
    ensures text { result.now
        ≡ flat_map (pair (file_size_octets large)) (pairs_read large octets.now) }
    ensures len { length result.now
        ≡ specified.pair_octets large * length (pairs_read large octets.now) }
{
    octets
}

/// Returns `true` if each number of pairs that were read fits a file-size field.
#[inline(always)]
#[tactic(auto, using(crate::proofs::Ranges::pairs_fit))]
fn read_pairs_fit(read: bool, octets: &[u8], large: bool) -> bool
    requires { length octets.now % specified.pair_octets read ≡ 0 }
    ensures { IsTrue result
        ↔ AllByRecursion (IsPair (file_size_octets large)) (pairs_read read octets.now) }
{
    if read == large {
        return true;
    }
    each_fits(large, pairs_over(read, octets))
}

/// Returns an iterator over the pairs that fill the octets.
fn pairs_over(large: bool, octets: &[u8]) -> PairIter<'_>
    requires { length octets.now % specified.pair_octets large ≡ 0 }
    ensures { result ≡ pairs_read large octets.now }
{
    PairIter::over(SegmentRequests::filling(large, octets))
}

/// Returns `true` if each number that is left fits a file-size field.
#[inline(never)]
fn each_fits(large: bool, mut pairs: PairIter<'_>) -> bool
    ensures { IsTrue result ↔ AllByRecursion (IsPair (file_size_octets large)) pairs.entry }
{
    while let Some((start, end)) = pairs.next() {
        if !is_file_size(large, start) || !is_file_size(large, end) {
            return false;
        }
    }
    true
}

/// Returns `true` if each number fits a file-size field.
fn are_file_sizes(large: bool, pairs: &[(u64, u64)]) -> bool
    ensures { IsTrue result ↔ AllByRecursion (IsPair (file_size_octets large)) pairs.now }
{
    for (start, end) in pairs {
        if !is_file_size(large, *start) || !is_file_size(large, *end) {
            return false;
        }
    }
    true
}

/// Writes pairs that were read: as they were read if their fields have as many octets as the
/// written ones, otherwise one by one.
#[inline(always)]
fn put_pairs_read(out: &mut [u8], at: usize, large: bool, read: bool, octets: &[u8]) -> usize
    requires whole { length octets.now % specified.pair_octets read ≡ 0 }
    requires fits { AllByRecursion (IsPair (file_size_octets large)) (pairs_read read octets.now) }
    requires room { at + specified.pair_octets large * length (pairs_read read octets.now)
        ≤ length out.old }
    ensures end { result
        ≡ at + specified.pair_octets large * length (pairs_read read octets.now) }
    ensures front { take result out.new ≡ take at out.old
        ++ flat_map (pair (file_size_octets large)) (pairs_read read octets.now) }
{
    if read == large {
        return put_bytes(out, at, as_pairs(large, octets));
    }
    put_each(out, at, large, pairs_over(read, octets))
}

/// Writes each pair that is left.
#[inline(never)]
fn put_each(out: &mut [u8], at: usize, large: bool, mut pairs: PairIter<'_>) -> usize
    requires fits { AllByRecursion (IsPair (file_size_octets large)) pairs }
    requires room { at + specified.pair_octets large * length pairs ≤ length out.old }
    ensures end { result ≡ at + specified.pair_octets large * length pairs.entry }
    ensures front { take result out.new
        ≡ take at out.old ++ flat_map (pair (file_size_octets large)) pairs.entry }
{
    let mut place = at;
    while let Some((start, end)) = pairs.next() {
        place = put_file_size(out, place, large, start);
        place = put_file_size(out, place, large, end);
    }
    place
}

/// Writes each pair.
fn put_pairs(out: &mut [u8], at: usize, large: bool, pairs: &[(u64, u64)]) -> usize
    requires fits { AllByRecursion (IsPair (file_size_octets large)) pairs.now }
    requires room { at + specified.pair_octets large * length pairs.now ≤ length out.old }
    ensures end { result ≡ at + specified.pair_octets large * length pairs.now }
    ensures front { take result out.new
        ≡ take at out.old ++ flat_map (pair (file_size_octets large)) pairs.now }
{
    let mut place = at;
    for (start, end) in pairs {
        place = put_file_size(out, place, large, *start);
        place = put_file_size(out, place, large, *end);
    }
    place
}
