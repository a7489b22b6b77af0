ghost use Rattle.std.specs.Prelude.{◌≡◌, ◌≢◌, ◌-◌, ◌/◌, ◌%◌, ◌^◌, ◌<◌, ◌≤◌, ◌↔◌, IsSome, IfSome};
ghost use Rattle.std.specs.Prelude.{IfNone};

use crate::numeral::read_digits;

/// A word: a sign and ten decimal digits. Minus zero is a word of its own.
///
/// Source: the IBM 650 Manual of Operation.
#[derive(Clone, Copy, Debug, PartialEq, Eq)]
pub struct Word {
    /// Whether the sign is minus.
    pub minus: bool,
    /// The ten digits as a number.
    pub digits: u64,
    pub ghost ten: { digits < 10 ^ 10 },
}

impl Word {
    ghost use Rattle.base_words.specs.Word.{spelling};

    /// The word with this sign and these digits; `None` for a number of more than ten digits.
    pub fn new(minus: bool, digits: u64) -> Option<Word>
        ensures valid { IsSome result ↔ (digits < 10 ^ 10) }
        ensures minus { IfSome result (λ word. word.minus ≡ minus) }
        ensures digits { IfSome result (λ word. word.digits ≡ digits) }
    {
        if digits < 10_000_000_000 {
            Some(Word { minus, digits })
        } else {
            None
        }
    }

    /// The word that the text spells: `+` or `-` and ten digits; `None` for any other text.
    pub fn read(text: &[u8]) -> Option<Word>
        ensures found { IfSome result (λ word. text.now ≡ spelling word) }
        ensures none { IfNone result ((word : Word) → text.now ≢ spelling word) }
    {
        if text.len() != 11 {
            return None;
        }
        let minus = match text[0] {
            b'+' => false,
            b'-' => true,
            _ => return None,
        };
        let Some(digits) = read_digits(&text[1..]) else {
            return None;
        };
        Some(Word { minus, digits })
    }

    /// Whether the sign is minus.
    pub fn minus(self) -> bool
        ensures { result ≡ self.minus }
    {
        self.minus
    }

    /// The ten digits as a number below 10^10.
    pub fn digits(self) -> u64
        ensures { result ≡ self.digits }
    {
        self.digits
    }

    /// The digit at a position, from 1, the units, to 10, the leftmost.
    pub fn position(self, position: u8) -> u8
        requires from_one { 1 ≤ position }
        requires to_ten { position ≤ 10 }
        ensures { result ≡ (self.digits / 10 ^ (position - 1)) % 10 }
    {
        (self.digits / 10u64.pow(u32::from(position) - 1) % 10) as u8
    }
}
