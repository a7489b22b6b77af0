//! How many counts of the marks there can be.

ghost use Rattle.std.specs.Prelude.{◌≡◌, ◌*◌, ◌^◌, min};
ghost use Rattle.flow_graph.specs.Accepted as said;
ghost use Rattle.flow_graph.specs.Accepted.{capped};

use base_notes::Mark;

/// The largest product that is told; it stands for all that are larger.
pub const LARGEST: u128 = 1 << 127;

/// The product of two numbers; 2^127 where that is more.
pub fn product(one: u128, other: u128) -> u128
    ensures { result ≡ capped (one * other) }
{
    match one.checked_mul(other) {
        Some(product) if product < LARGEST => product,
        _ => LARGEST,
    }
}

/// How many counts of these marks there can be: the product of `most + 1` over the marks; 2^127
/// where that is more.
pub fn counts_of(marks: &[Mark]) -> u128
    ensures { result ≡ capped (said.counts_of marks.now) }
{
    let mut counts: u128 = 1;
    for mark in marks {
        counts = product(counts, mark.most as u128 + 1);
    }
    counts
}

/// So many executed words times the counts of these marks; 2^127 where that is more.
pub fn product_of(words: usize, marks: &[Mark]) -> u128
    ensures { result ≡ capped (words * said.counts_of marks.now) }
{
    product(words as u128, counts_of(marks))
}
