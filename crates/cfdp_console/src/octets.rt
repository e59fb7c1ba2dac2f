//! Texts that begin or end with certain octets.
ghost use Rattle.std.specs.Prelude.{◌≡◌, ◌≢◌, ◌++◌, ◌↔◌, ℕ, List, IsTrue, MatchOption};

/// Returns what stands in a text after `front`; `None` if the text doesn't begin with it.
pub fn behind<'a>(text: &'a [u8], front: &[u8]) -> Option<&'a [u8]>
    ensures { MatchOption result ((rest : List ℕ) → text.now ≢ front.now ++ rest)
        (λ rest. text.now ≡ front.now ++ rest.now) }
{
    text.strip_prefix(front)
}

/// Returns what stands in a text before `end`; `None` if the text doesn't end with it.
pub fn in_front_of<'a>(text: &'a [u8], end: &[u8]) -> Option<&'a [u8]>
    ensures { MatchOption result ((rest : List ℕ) → text.now ≢ rest ++ end.now)
        (λ rest. text.now ≡ rest.now ++ end.now) }
{
    text.strip_suffix(end)
}

/// Returns `true` if a text is these two, one after the other.
pub fn is_joined(text: &[u8], front: &[u8], end: &[u8]) -> bool
    ensures { IsTrue result ↔ (text.now ≡ front.now ++ end.now) }
{
    match behind(text, front) {
        Some(rest) => rest == end,
        None => false,
    }
}
