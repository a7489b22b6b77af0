//! Between whole numbers and floats.

use std::num::{nearest_u64_to_f64, saturating_f64_to_u64};

/// 2^64, the least number that a half of a wide one hasn't room for.
const HALF: f64 = 18446744073709551616.0;

/// The same as a whole number.
const WHOLE_HALF: u128 = 18446744073709551616;

/// A float near a whole number.
pub fn float_of(number: i128) -> f64 {
    let size = number.unsigned_abs();
    let near = half_of(size / WHOLE_HALF) * HALF + half_of(size % WHOLE_HALF);
    if number < 0 { -near } else { near }
}

/// A float near a number below 2^64.
fn half_of(number: u128) -> f64 {
    nearest_u64_to_f64(u64::try_from(number).unwrap_or(u64::MAX))
}

/// The whole number that is nearest to a float, as far as there is room for it.
pub fn whole_of(number: f64) -> i128 {
    let size = number.abs().round();
    let high = saturating_f64_to_u64(size / HALF);
    let low = saturating_f64_to_u64(size - nearest_u64_to_f64(high) * HALF);
    let whole = u128::from(high)
        .saturating_mul(WHOLE_HALF)
        .saturating_add(u128::from(low));
    let whole = i128::try_from(whole).unwrap_or(i128::MAX);
    if number < 0.0 {
        whole.saturating_neg()
    } else {
        whole
    }
}

/// How small a sum may be beside its parts, so that it is taken for 0.
const NOISE: f64 = 1e-12;

/// A sum of parts of this size in all, or 0 where that is all that can be said.
pub fn cleaned(sum: f64, size: f64) -> f64 {
    if sum.abs() <= size * NOISE { 0.0 } else { sum }
}

/// The sum of what numbers come to, each times the other one in its place.
pub fn product_of(numbers: &[f64], others: &[f64]) -> f64 {
    let mut sum = 0.0;
    let mut size = 0.0;
    for (number, other) in numbers.iter().zip(others) {
        let part = *number * *other;
        sum += part;
        size += part.abs();
    }
    cleaned(sum, size)
}
