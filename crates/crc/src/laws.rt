//! Laws of checks, each the contract of a function that does nothing.
ghost use Rattle.std.specs.Prelude.{◌≡◌, ℕ, ◌+◌, ◌^◌, ◌<◌, ◌≤◌, ◌↔◌, ◌++◌, ◌∷◌, [], List, length};
ghost use Rattle.std.specs.Prelude.{slice_index};
ghost use Rattle.crc.specs.Checks.{crc16_behind, crc16_of};
ghost use Rattle.crc.specs.Division.{remainder, IsLeft};
ghost use Rattle.crc.specs.FileChecks.{crc32_of, written32};
ghost use Rattle.crc.specs.Pieces.{kept_of, kept_with, nothing_kept, Cuts, Piece};
ghost use Rattle.crc.specs.declared.thirty_two.Crc32.{Crc32};
ghost use Rattle.crc.specs.declared.thirty_two.Crc32.TheVariants.{Castagnoli, Ieee};

/// The remainder of a division is the only number that fits its definition.
pub fn what_is_left_is_the_remainder()
    ensures { (degree divisor count n r : ℕ) → 2 ^ degree ≤ divisor → divisor < 2 ^ (degree + 1)
        → n < 2 ^ count → IsLeft degree divisor n r ↔ (r ≡ remainder degree divisor count n) }
{}

/// The check of octets begins with the check of the octets before them.
pub fn a_check_goes_on()
    ensures { (start : ℕ) (front back : List ℕ) → start < 2 ^ 16
        → ((i : ℕ) → slice_index back i < 256)
        → crc16_behind (crc16_behind start front) back ≡ crc16_behind start (front ++ back) }
{}

/// The check of the text `123456789` is 29B1, hexadecimal: the value that catalogues of such checks
/// give.
pub fn the_worked_check()
    ensures { crc16_of (49 ∷ 50 ∷ 51 ∷ 52 ∷ 53 ∷ 54 ∷ 55 ∷ 56 ∷ 57 ∷ []) ≡ 10673 }
{}

/// However a file is cut, and in whatever order its pieces come, what is kept of them is its check.
pub fn cut_file_has_its_check()
    ensures { (kind : Crc32) (file : List ℕ) (pieces : List Piece) → Cuts file pieces
        → written32 kind (kept_of kind pieces).left ≡ crc32_of kind file }
{}

/// Octets that follow the octets that came leave what both leave in one piece. If none came,
/// nothing is left, and a whole file in one piece leaves its check.
pub fn a_file_check_goes_on()
    ensures none { (kind : Crc32) → kept_with (nothing_kept kind) (record { offset = 0; bytes = [] })
        ≡ nothing_kept kind }
    ensures more { (kind : Crc32) (front back : List ℕ) →
        kept_with (kept_with (nothing_kept kind) (record { offset = 0; bytes = front }))
        (record { offset = length front; bytes = back })
        ≡ kept_with (nothing_kept kind) (record { offset = 0; bytes = front ++ back }) }
    ensures whole { (kind : Crc32) (file : List ℕ) →
        written32 kind (kept_with (nothing_kept kind) (record { offset = 0; bytes = file })).left
        ≡ crc32_of kind file }
{}

/// The checks of the text `123456789` that catalogues give: E3069283 and CBF43926, hexadecimal.
pub fn the_worked_file_checks()
    ensures castagnoli { crc32_of Castagnoli (49 ∷ 50 ∷ 51 ∷ 52 ∷ 53 ∷ 54 ∷ 55 ∷ 56 ∷ 57 ∷ [])
        ≡ 3808858755 }
    ensures ieee { crc32_of Ieee (49 ∷ 50 ∷ 51 ∷ 52 ∷ 53 ∷ 54 ∷ 55 ∷ 56 ∷ 57 ∷ [])
        ≡ 3421780262 }
{}
