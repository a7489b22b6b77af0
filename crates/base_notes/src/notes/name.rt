//! The name of a mark.

ghost use Rattle.std.specs.Prelude.{◌≡◌, ◌≤◌, ◌↔◌, IsSome, IfSome, IsTrue, length, string_bytes};
ghost use Rattle.std.specs.List.{list_all};
ghost use Rattle.base_notes.specs.Names as names;

use std::marker::Model;

/// A name that notes give a mark: 1 to 20 letters, digits and `-`.
#[derive(Debug, Drop)]
pub struct Name {
    text: String,
}

impl Model for Name {
    ghost use Rattle.std.specs.Prelude.{List, ℕ, string_bytes};

    ghost Value = { List ℕ };

    ghost use Rattle.std.specs.Prelude.{IsTrue};
    ghost use Rattle.base_notes.specs.Names.{is_name};

    ghost view = { λ name. string_bytes name.text };

    ghost invariant = { λ name. IsTrue (is_name (string_bytes name.text)) };
}

/// Whether it may stand in a name: a letter from `A` to `Z` or `a` to `z`, a digit, or `-`.
fn is_of_name(byte: u8) -> bool
    ensures { result ≡ names.is_of_name byte }
{
    byte.is_ascii_alphanumeric() || byte == b'-'
}

/// Whether all of these may.
fn are_of_name(text: &[u8]) -> bool
    ensures { result ≡ list_all names.is_of_name text.now }
{
    text.iter().all(|byte| is_of_name(*byte))
}

/// Whether it is a name: 1 to 20 such bytes.
fn is_name(text: &[u8]) -> bool
    ensures { result ≡ names.is_name text.now }
{
    1 <= text.len() && text.len() <= 20 && are_of_name(text)
}

impl Name {
    /// The name of this text; `None` where it is none.
    pub fn new(text: String) -> Option<Name>
        ensures valid { IsSome result ↔ IsTrue (names.is_name (string_bytes text)) }
        ensures value { IfSome result (λ name. name ≡ string_bytes text) }
    {
        if is_name(text.as_bytes()) {
            Some(Name { text })
        } else {
            None
        }
    }

    /// Its text.
    pub fn as_bytes(&self) -> &[u8]
        ensures value { result.now ≡ self.now }
        ensures short { length result.now ≤ 20 }
    {
        self.text.as_bytes()
    }
}
