//! Faults of one text to whose lines the same was done.

ghost use Rattle.std.specs.Prelude.{◌≡◌, count_by};
ghost use Rattle.read_faults.specs.Alike as spec;

use crate::placed_fault::PlacedFault;
use crate::slip::Slip;

/// From how many on of faults that are alike only the first is told.
const MANY: usize = 10;

/// Whether this was done to the line of a fault.
fn has_slip<F>(placed: &PlacedFault<F>, slip: Slip) -> bool
    ensures { result ≡ spec.has_slip slip placed.now }
{
    placed.slip == Some(slip)
}

/// How many faults there are to whose lines this was done.
fn count_alike<F>(faults: &[PlacedFault<F>], slip: Slip) -> usize
    ensures { result ≡ count_by (spec.has_slip slip) faults.now }
{
    faults
        .iter()
        .filter(|placed| has_slip(placed, slip))
        .count()
}

/// How many more faults there are to whose lines this was done, where they are ten or more.
pub fn more_alike<F>(faults: &[PlacedFault<F>], slip: Option<Slip>) -> Option<usize>
    ensures { result ≡ spec.more_alike faults.now slip }
{
    let slip = slip?;
    let count = count_alike(faults, slip);
    if count < MANY { None } else { Some(count - 1) }
}

/// The line of the first fault to whose line this was done.
pub fn first_alike<F>(faults: &[PlacedFault<F>], slip: Option<Slip>) -> Option<u16>
    ensures { result ≡ spec.first_alike faults.now slip }
{
    let slip = slip?;
    match faults.iter().find(|placed| has_slip(placed, slip)) {
        None => None,
        Some(first) => first.line,
    }
}
