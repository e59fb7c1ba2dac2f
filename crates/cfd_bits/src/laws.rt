//! Laws of bit fields, each the contract of a function that does nothing.
ghost use Rattle.std.specs.Prelude.{◌≡◌, ℕ, ◌+◌, ◌*◌, ◌^◌, ◌<◌, ◌≤◌, ◌↔◌, ◌++◌, List, length, take};
ghost use Rattle.std.specs.Prelude.{drop, slice_index};
ghost use Rattle.cfd_bits.specs.Field.{field, octets, HasBits};

/// A field is the one number whose binary digits are its bits, the first the most significant.
pub fn a_field_is_its_bits()
    ensures { (text : List ℕ) (at width n : ℕ) → HasBits n text at width
        ↔ (n ≡ field text at width) }
{}

/// A number that was written into octets is read from them again, whatever follows.
pub fn what_is_written_is_read()
    ensures { (count n : ℕ) (rest : List ℕ) → n < 256 ^ count →
        field (octets count n ++ rest) 0 (8 * count) ≡ n }
{}

/// The octets of a number that was read from octets are those octets.
pub fn octets_read_are_written()
    ensures { (text : List ℕ) (start count : ℕ) → ((i : ℕ) → slice_index text i < 256) →
        start + count ≤ length text → octets count (field text (8 * start) (8 * count))
        ≡ take count (drop start text) }
{}
