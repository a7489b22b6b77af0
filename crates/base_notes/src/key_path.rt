ghost use Rattle.std.specs.Prelude.{◌≡◌, ◌^◌, ◌≤◌, ◌↔◌, IsSome, IfSome, Some, length, string_bytes};
ghost use Rattle.std.specs.Prelude.{string_len};

use std::fmt;

/// The path of a key of a document, with dots, as `op.19.per`. Elements of arrays are numbered from
/// 1.
#[derive(Debug, Drop, PartialEq, Eq)]
pub struct KeyPath {
    /// The keys, with dots between them.
    pub text: String,
    pub ghost short: { string_len text ≤ 2 ^ 61 },
}

impl KeyPath {
    /// The path of this text; `None` past 2^61 bytes, for which no machine has the addresses.
    pub fn new(text: String) -> Option<KeyPath>
        ensures valid { IsSome result ↔ (string_len text ≤ 2 ^ 61) }
        ensures value { IfSome result (λ path. path.text ≡ text) }
    {
        if text.len() <= 1 << 61 {
            Some(KeyPath { text })
        } else {
            None
        }
    }

    /// Its text, of at most 2^61 bytes.
    pub fn as_bytes(&self) -> &[u8]
        ensures value { result.now ≡ string_bytes self.now.text }
        ensures short { length result.now ≤ 2 ^ 61 }
    {
        self.text.as_bytes()
    }
}

impl fmt::Display for KeyPath {
    ghost output = { λ path. Some (string_bytes path.text) };

    fn fmt<W: fmt::Write>(&self, f: &mut fmt::Formatter<W>) -> fmt::Result {
        f.write_str(self.text.as_str())
    }
}
