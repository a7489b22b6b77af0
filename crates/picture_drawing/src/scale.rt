/// From here on what is to be multiplied by a length has to be made smaller first.
const LARGE: u128 = 1 << 88;

/// So much of a length as a part is of a whole, rounded down; at most the length. Of a whole from
/// 2^88 on the 40 lowest bits don't count.
pub fn scaled(part: u128, whole: u128, length: u64) -> u64 {
    let unit = if whole < LARGE { 1 } else { 1 << 40 };
    let product = (part / unit).saturating_mul(u128::from(length));
    let share = product / (whole / unit).max(1);
    u64::try_from(share).unwrap_or(length).min(length)
}
