//! The comparison of MACs.
ghost use Rattle.std.specs.Prelude.{◌≡◌, ◌↔◌, IsTrue, length, take};

/// Returns `true` if two MACs are equal. They must have the same length. It looks at each octet of
/// both, whatever it finds, so that its time doesn't show where they differ.
pub fn are_same(one: &[u8], other: &[u8]) -> bool
    requires { length one.now ≡ length other.now }
    ensures { IsTrue result ↔ (one.now ≡ other.now) }
{
    let mut differs = 0;
    for i in 0..one.len() {
        differs |= one[i] ^ other[i];
    }
    differs == 0
}
