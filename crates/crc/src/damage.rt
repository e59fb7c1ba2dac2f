//! A law of the check of sixteen bits, the contract of a function that does nothing.
ghost use Rattle.std.specs.Prelude.{◌≡◌, ℕ, ◌≤◌, true, false, List, length};
ghost use Rattle.crc.specs.Checks.{ends_in_check};
ghost use Rattle.crc.specs.Damage.{IsDamaged};

/// If one, two or three bits of up to 2,048 octets that end in their check are turned, or any bits
/// within 16 in a row, the octets no longer end in their check.
pub fn damage_is_seen()
    ensures { (sent came : List ℕ) → 2 ≤ length sent → length sent ≤ 2048
        → ends_in_check sent ≡ true → IsDamaged sent came → ends_in_check came ≡ false }
{}
