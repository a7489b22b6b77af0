//! The capital letters that a line begins with.

ghost use Rattle.std.specs.Prelude.{◌≡◌, ◌≢◌, ℕ, List, ◌++◌, MatchOption};

/// What stands behind the key that the text begins with.
pub fn behind<'a>(text: &'a [u8], key: &[u8]) -> Option<&'a [u8]>
    ensures { MatchOption result
        ((rest : List ℕ) → text.now ≢ key.now ++ rest)
        (λ rest. text.now ≡ key.now ++ rest.now) }
{
    text.strip_prefix(key)
}
