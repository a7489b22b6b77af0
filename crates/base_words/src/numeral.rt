//! Numbers that are written with a fixed number of decimal digits.

ghost use Rattle.std.specs.Prelude.{◌≡◌, ◌≢◌, ℕ, ◌<◌, ◌≤◌, ◌^◌, length, IfSome, IfNone, ◌⊎◌, ◌+◌};
ghost use Rattle.base_words.specs.Numeral.{digits_of};

/// The digit that a byte writes.
fn read_digit(byte: u8) -> Option<u64>
    ensures found { IfSome result (λ digit. (digit < 10) × (byte ≡ 48 + digit)) }
    ensures none { IfNone result ((byte < 48) ⊎ (57 < byte)) }
{
    match byte {
        b'0'..=b'9' => Some(u64::from(byte - b'0')),
        _ => None,
    }
}

/// The number that the text writes in decimal digits; `None` where a byte of it is no digit.
pub fn read_digits(text: &[u8]) -> Option<u64>
    requires { length text.now ≤ 19 }
    ensures found { IfSome result (λ n. text.now ≡ digits_of (length text.now) n) }
    ensures small { IfSome result (λ n. n < 10 ^ length text.now) }
    ensures none { IfNone result ((n : ℕ) → text.now ≢ digits_of (length text.now) n) }
{
    let mut number = 0;
    for byte in text {
        let Some(digit) = read_digit(*byte) else {
            return None;
        };
        number = number * 10 + digit;
    }
    Some(number)
}
