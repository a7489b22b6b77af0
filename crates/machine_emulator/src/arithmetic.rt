//! Arithmetic on the accumulator's number and on the numbers of words, as the definitions have it.

ghost use Rattle.std.specs.Prelude.{◌≡◌, ◌+◌, ◌*◌, ◌/◌, ◌%◌, ◌^◌, ◌<◌, ◌≤◌, unsigned_abs, false};
ghost use Rattle.std.specs.Prelude.{◌+ℤ◌};
ghost use Rattle.base_words.specs.Word.{word as word_of, signed as signed_of};
ghost use Rattle.base_words.specs.Word.{number_in as number_of};
ghost use Rattle.base_words.specs.declared.op.shift.Shift.TheVariants as shift;
ghost use Rattle.machine_steps.specs.Contents.{upper as upper_of, lower as lower_of};
ghost use Rattle.machine_steps.specs.Contents.{is_minus as minus_of};
ghost use Rattle.machine_steps.specs.Effect.{amount_of as added_of, product as product_of};
ghost use Rattle.machine_steps.specs.Effect.{differ as differ_of, quotient as quotient_of};
ghost use Rattle.machine_steps.specs.Effect.{rest as rest_of, is_too_large as too_large_of};
ghost use Rattle.machine_steps.specs.Effect.{shifted as shifted_of, places as places_of};
ghost use Rattle.machine_steps.specs.Effect.{digit_at as digit_of};
ghost use Rattle.machine_steps.specs.Timing.{digit_sum as digit_sum_of};

use base_words::{Amount, Position, Shift, Word};
use machine_steps::places;

/// 10^10: the magnitude of half an accumulator is below it.
pub const HALF: u128 = 10_000_000_000;

/// 10^20: the magnitude of an accumulator is below it.
pub const WHOLE: u128 = HALF * HALF;

/// The word of this sign and these digits.
pub fn make_word(minus: bool, digits: u64) -> Word
    requires { digits < 10 ^ 10 }
    ensures { result ≡ word_of minus digits }
{
    Word { minus, digits }
}

/// The number of this sign and this magnitude; zero has no sign.
pub fn signed(minus: bool, magnitude: u128) -> i128
    requires { magnitude < 10 ^ 30 }
    ensures { result ≡ signed_of minus magnitude }
{
    let size = magnitude as i128;
    if minus { -size } else { size }
}

/// The number of a word; minus zero is 0.
pub fn number_in(word: Word) -> i128
    ensures value { result ≡ number_of word }
    ensures half { unsigned_abs result < 10 ^ 10 }
{
    signed(word.minus(), u128::from(word.digits()))
}

/// Whether the number is minus; zero is plus.
pub fn is_minus(number: i128) -> bool
    ensures { result ≡ minus_of number }
{
    number < 0
}

/// The upper ten of the twenty digits of the number's magnitude.
pub fn upper(number: i128) -> u64
    requires { unsigned_abs number < 10 ^ 20 }
    ensures value { result ≡ upper_of number }
    ensures half { result < 10 ^ 10 }
{
    (number.unsigned_abs() / HALF) as u64
}

/// The lower ten of the twenty digits of the number's magnitude.
pub fn lower(number: i128) -> u64
    requires { unsigned_abs number < 10 ^ 20 }
    ensures value { result ≡ lower_of number }
    ensures half { result < 10 ^ 10 }
{
    (number.unsigned_abs() % HALF) as u64
}

/// What is added, of the number at D.
pub fn amount_of(amount: Amount, number: i128) -> i128
    requires { unsigned_abs number < 10 ^ 10 }
    ensures value { result ≡ added_of amount number }
    ensures whole { unsigned_abs result < 10 ^ 20 }
{
    match amount {
        Amount::Upper => number * 10_000_000_000,
        Amount::MinusUpper => -(number * 10_000_000_000),
        Amount::Lower => number,
        Amount::MinusLower => -number,
        Amount::AbsoluteLower => number.abs(),
        Amount::MinusAbsoluteLower => -number.abs(),
    }
}

/// What the accumulator is to hold where an amount of the word at D is added.
pub fn sum(accumulator: i128, amount: Amount, word: Word) -> i128
    requires { unsigned_abs accumulator < 10 ^ 20 }
    ensures value { result ≡ accumulator +ℤ added_of amount (number_of word) }
    ensures short { unsigned_abs result < 10 ^ 30 }
{
    accumulator + amount_of(amount, number_in(word))
}

/// Whether the two numbers have different signs.
pub fn differ(number: i128, other: i128) -> bool
    ensures { result ≡ differ_of number other }
{
    is_minus(number) != is_minus(other)
}

/// The product of the upper half and the number, to which the lower half is added ten places up.
pub fn product(accumulator: i128, number: i128) -> i128
    requires whole { unsigned_abs accumulator < 10 ^ 20 }
    requires half { unsigned_abs number < 10 ^ 10 }
    ensures value { result ≡ product_of accumulator number }
    ensures short { unsigned_abs result < 10 ^ 30 }
{
    let by = number.unsigned_abs();
    let size = u128::from(upper(accumulator)) * by + u128::from(lower(accumulator)) * HALF;
    signed(differ(accumulator, number), size)
}

/// Whether the quotient of the accumulator by the number would have more than ten digits, or the
/// number is 0.
pub fn is_too_large(accumulator: i128, number: i128) -> bool
    requires { unsigned_abs accumulator < 10 ^ 20 }
    ensures { result ≡ too_large_of accumulator number }
{
    number.unsigned_abs() <= u128::from(upper(accumulator))
}

/// The quotient of the magnitudes.
pub fn quotient(accumulator: i128, number: i128) -> u128
    requires whole { unsigned_abs accumulator < 10 ^ 20 }
    requires fits { too_large_of accumulator number ≡ false }
    ensures value { result ≡ quotient_of accumulator number }
    ensures half { result < 10 ^ 10 }
{
    accumulator.unsigned_abs() / number.unsigned_abs()
}

/// The remainder of the magnitudes' division.
pub fn rest(accumulator: i128, number: i128) -> u128
    requires whole { unsigned_abs accumulator < 10 ^ 20 }
    requires half { unsigned_abs number < 10 ^ 10 }
    requires fits { too_large_of accumulator number ≡ false }
    ensures value { result ≡ rest_of accumulator number }
    ensures half { result < 10 ^ 10 }
{
    accumulator.unsigned_abs() % number.unsigned_abs()
}

/// 10 to the power of `places`.
fn power(places: u32) -> u128
    requires { places ≤ 10 }
    ensures value { result ≡ 10 ^ places }
    ensures some { 1 ≤ result }
    ensures half { result ≤ 10 ^ 10 }
{
    10u128.pow(places)
}

/// The magnitude without its lowest `places` digits, rounded.
fn rounded(places: u32, size: u128) -> u128
    requires some { 1 ≤ places }
    requires ten { places ≤ 10 }
    requires whole { size < 10 ^ 20 }
    ensures value { result ≡ shifted_of shift.Round places size }
    ensures whole { result < 10 ^ 20 }
{
    (size + 5 * power(places - 1)) / power(places)
}

/// The magnitude after the shift of an instruction with this D.
pub fn shifted(shift: Shift, d: u16, size: u128) -> u128
    requires whole { size < 10 ^ 20 }
    ensures value { result ≡ shifted_of shift (places_of shift d) size }
    ensures whole { result < 10 ^ 20 }
{
    let places = places(shift, d);
    match shift {
        Shift::Right => size / power(places),
        Shift::Round => rounded(places, size),
        Shift::Left => size * power(places) % WHOLE,
    }
}

/// The sum of the ten lowest digits.
pub fn digit_sum(number: u128) -> u64
    ensures value { result ≡ digit_sum_of 10 number }
    ensures ninety { result ≤ 90 }
{
    let mut left = number;
    let mut sum: u64 = 0;
    for _ in 0..10u8 {
        sum += (left % 10) as u64;
        left /= 10;
    }
    sum
}

/// The digit at a position of a word.
pub fn digit_at(position: Position, word: Word) -> u64
    ensures { result ≡ digit_of position word }
{
    let behind = match position {
        Position::First => 0,
        Position::Second => 1,
        Position::Third => 2,
        Position::Fourth => 3,
        Position::Fifth => 4,
        Position::Sixth => 5,
        Position::Seventh => 6,
        Position::Eighth => 7,
        Position::Ninth => 8,
        Position::Tenth => 9,
    };
    word.digits() / 10u64.pow(behind) % 10
}
