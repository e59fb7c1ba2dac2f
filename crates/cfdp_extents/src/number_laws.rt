//! How much memory ids take, as the contract of a function that does nothing.
ghost use Rattle.std.specs.Prelude.{◌≡◌, ℕ, ◌+◌, ◌-◌, ◌≤◌, true, length};
ghost use Rattle.std.specs.FinSet as set;
ghost use Rattle.cfdp_extents.specs.Terms.{end_of, ranges_of};
ghost use Rattle.cfdp_extents.specs.Forgotten.{NumberSet};
ghost use Rattle.cfdp_extents.specs.Few.{left_out};

/// A set of numbers is made of at most one more range than the numbers that it leaves out, from one
/// on below which it has none.
pub fn ranges_are_few()
    ensures { (held : NumberSet) (first : ℕ)
        → ((n : ℕ) → set.contains held n ≡ true → first ≤ n)
        → length (ranges_of held)
        ≤ 1 + left_out (set.contains held) first (end_of held - first) }
{}
