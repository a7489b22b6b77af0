//! The accumulator as a line states it.

ghost use Rattle.std.specs.Prelude.{◌≡◌, ◌≢◌, ℕ, ◌+◌, ◌^◌, ◌<◌, ℤ, length, IfSome, IfNone};
ghost use Rattle.base_words.specs.Numeral.{digits_of};
ghost use Rattle.read_replays.specs.InputsText as text;

use crate::key::behind;
use base_words::numeral::read_digits;

/// The number that twenty digits write.
fn read_twenty(text: &[u8]) -> Option<u128>
    requires { length text.now ≡ 20 }
    ensures found { IfSome result (λ n. text.now ≡ digits_of 20 n) }
    ensures small { IfSome result (λ n. n < 10 ^ 20) }
    ensures none { IfNone result ((n : ℕ) → text.now ≢ digits_of 20 n) }
{
    let Some(upper) = read_digits(&text[..10]) else {
        return None;
    };
    let Some(lower) = read_digits(&text[10..]) else {
        return None;
    };
    Some(u128::from(upper) * 10_000_000_000 + u128::from(lower))
}

/// The number of a line that states the accumulator; minus zero is zero.
pub fn read_accumulator(line: &[u8]) -> Option<i128>
    ensures found { IfSome result (λ a. text.IsLine line.now (text.accumulator a)) }
    ensures none { IfNone result ((a : ℤ) → ¬ text.IsLine line.now (text.accumulator a)) }
{
    let Some(number) = behind(line, b"ACCUMULATOR ") else {
        return None;
    };
    if number.len() != 21 {
        return None;
    }
    let Some(magnitude) = read_twenty(&number[1..]) else {
        return None;
    };
    match number[0] {
        b'+' => Some(magnitude as i128),
        b'-' => Some(-(magnitude as i128)),
        _ => None,
    }
}
