ghost use Rattle.std.specs.Prelude.{◌≡◌, ℕ, ◌+◌, ◌-◌, ◌<◌, ◌≤◌, List, Some, length, max, slice_get};
ghost use Rattle.std.specs.Prelude.{slice_index};
ghost use Rattle.std.specs.FinMap as map;
ghost use Rattle.cfdp_store.specs.Shown.{AreExpected, seen_by};
ghost use Rattle.cfdp_store.specs.declared.sources.Shown.{Shown};
ghost use Rattle.cfdp_store.specs.Staged.{OctetMap, Covers, written, front};

/// A law: what is written stands from its offset on, and replaces what stood there. All else stays.
pub fn written_octets_stand()
    ensures written { (m : OctetMap) (at : ℕ) (xs : List ℕ) (n : ℕ) → at ≤ n → n < at + length xs
        → map.get (written m at xs) n ≡ Some (slice_index xs (n - at)) }
    ensures below { (m : OctetMap) (at : ℕ) (xs : List ℕ) (n : ℕ) → n < at
        → map.get (written m at xs) n ≡ map.get m n }
    ensures behind { (m : OctetMap) (at : ℕ) (xs : List ℕ) (n : ℕ) → at + length xs ≤ n
        → map.get (written m at xs) n ≡ map.get m n }
{}

/// A law: if octets are written from within what was written, or right after it, they take nothing
/// away, and reach as far as they do.
pub fn written_octets_cover()
    ensures { (m : OctetMap) (size at : ℕ) (xs : List ℕ) → Covers size m → at ≤ size
        → Covers (max size (at + length xs)) (written m at xs) }
{}

/// A law: if the first `size` octets were all written, there are as many staged, and each is the
/// one that stands there.
pub fn front_is_what_stands()
    ensures len { (m : OctetMap) (size : ℕ) → length (front m size) ≡ size }
    ensures octets { (m : OctetMap) (size n : ℕ) → Covers size m → n < size
        → slice_get (front m size) n ≡ map.get m n }
{}

/// A law: if all that was seen of a folder was as expected, so that the files of its outbox stand,
/// each of them is one of the files that were expected of the looks, whole and octet by octet.
pub fn files_that_stand_are_expected()
    ensures { (expected : List (List ℕ)) (shown : List Shown) →
        AreExpected expected (seen_by expected shown) }
{}
