//! Laws of sets of offsets, each the contract of a function that does nothing.
ghost use Rattle.std.specs.Prelude.{◌≡◌, ◌⊎◌, ℕ, ◌+◌, ◌-◌, ◌<◌, ◌≤◌, ◌&&◌, ◌||◌, not, true, List, ◌∷◌, None};
ghost use Rattle.std.specs.Prelude.{Some};
ghost use Rattle.std.specs.FinSet as set;
ghost use Rattle.std.specs.List.{All};
ghost use Rattle.cfdp_extents.specs.Offsets.{Offsets, is_within, range, union_of, missing_from};
ghost use Rattle.cfdp_extents.specs.Offsets.{LiesIn, AreRangesOf};
ghost use Rattle.cfdp_extents.specs.Front.{IsFront};
ghost use Rattle.cfdp_extents.specs.Terms.{ranges_in, ranges_of, gaps_of, end_of, front_of};
ghost use Rattle.cfdp_extents.specs.Count.{gap_count, admits};

/// What a set of offsets holds; if two sets hold the same, they are one.
///
/// A range holds what lies in it; a union, what either side holds; a difference, what the first
/// holds and the second does not.
pub fn a_set_is_what_it_holds()
    ensures range { (start end n : ℕ) → set.contains (range start end) n ≡ is_within start end n }
    ensures union { (a b : Offsets) (n : ℕ) →
        set.contains (set.union a b) n ≡ (set.contains a n || set.contains b n) }
    ensures difference { (a b : Offsets) (n : ℕ) →
        set.contains (set.difference a b) n ≡ (set.contains a n && not (set.contains b n)) }
    ensures ranges { (r : ℕ × ℕ) (rs : List (ℕ × ℕ)) (n : ℕ) →
        set.contains (union_of (r ∷ rs)) n ≡ (is_within r.0 r.1 n || set.contains (union_of rs) n) }
    ensures same { (a b : Offsets) → ((n : ℕ) → set.contains a n ≡ set.contains b n) → a ≡ b }
{}

/// The gaps between two offsets are the ranges of what is not held there.
///
/// No other list is so. Each gap has at least one offset, and lies between the two.
pub fn the_gaps_are_those_ranges()
    ensures are { (held : Offsets) (start limit : ℕ) →
        AreRangesOf (missing_from held start limit) (gaps_of held start limit) }
    ensures only { (held : Offsets) (start limit : ℕ) (gaps : List (ℕ × ℕ)) →
        AreRangesOf (missing_from held start limit) gaps → gaps ≡ gaps_of held start limit }
    ensures inside { (held : Offsets) (start limit : ℕ) →
        All (LiesIn start limit) (gaps_of held start limit) }
{}

/// A set is made of one list of ranges, apart and ascending.
///
/// If all of the set lies below a limit, they are the ranges found below that limit.
pub fn a_set_has_one_list_of_ranges()
    ensures are { (held : Offsets) → AreRangesOf held (ranges_of held) }
    ensures only { (held : Offsets) (ranges : List (ℕ × ℕ)) →
        AreRangesOf held ranges → ranges ≡ ranges_of held }
    ensures below { (held : Offsets) (limit : ℕ) →
        ((n : ℕ) → set.contains held n ≡ true → n < limit) →
        ranges_in (set.contains held) 0 limit ≡ ranges_of held }
{}

/// The front of a set is the front of its first range.
///
/// There is one, unless the set is empty or nothing is asked for.
pub fn the_front_is_the_first_range()
    ensures is { (held : Offsets) (max : ℕ) (r : ℕ × ℕ) →
        front_of held max ≡ Some r → IsFront held max r.0 r.1 }
    ensures only { (held : Offsets) (max start end : ℕ) →
        IsFront held max start end → front_of held max ≡ Some (start, end) }
    ensures none { (held : Offsets) (max : ℕ) →
        front_of held max ≡ None → (max ≡ 0) ⊎ (held ≡ set.empty) }
{}

/// The end of a set is one more than the greatest offset held, or 0.
pub fn the_end_is_one_past_the_last()
    ensures all_before { (held : Offsets) (n : ℕ) → set.contains held n ≡ true → n < end_of held }
    ensures last { (held : Offsets) → 0 < end_of held → set.contains held (end_of held - 1) ≡ true }
    ensures only { (held : Offsets) (end : ℕ) →
        ((n : ℕ) → set.contains held n ≡ true → n < end) →
        (0 < end → set.contains held (end - 1) ≡ true) → end ≡ end_of held }
{}

/// What a limit of gaps admits keeps it, and it admits all that follows what is held.
///
/// A part follows if it begins at offset 0, or one after an offset that is held.
pub fn a_limit_admits_what_follows()
    ensures keeps { (most : ℕ) (held : Offsets) (start end : ℕ) →
        admits most held start end ≡ true → gap_count held ≤ most →
        gap_count (set.union held (range start end)) ≤ most }
    ensures first { (most : ℕ) (held : Offsets) (end : ℕ) → admits most held 0 end ≡ true }
    ensures follows { (most : ℕ) (held : Offsets) (n end : ℕ) →
        set.contains held n ≡ true → n < end → admits most held (n + 1) end ≡ true }
{}
