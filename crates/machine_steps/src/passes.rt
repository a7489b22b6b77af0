//! What a pass of a mark does to the count of each.

ghost use Rattle.std.specs.Prelude.{◌≡◌, ◌≤◌, ◌<◌, ◌+◌, length, take, slice_get, slice_index, ◌==◌};
ghost use Rattle.std.specs.Prelude.{if◌then◌else◌};
ghost use Rattle.machine_steps.specs.Counts as counted;

use base_notes::Mark;

/// The index of the mark that the one with this index stands inside of.
fn outer_of(marks: &[Mark], place: usize) -> Option<usize>
    ensures { result ≡ counted.outer_of (slice_get marks.now place) }
{
    if place >= marks.len() {
        return None;
    }
    marks[place].inside
}

/// Whether the mark with one index in the notes stands inside that with another, directly or
/// through others; an index past the last mark stands inside none.
pub fn is_inside(marks: &[Mark], inner: usize, outer: usize) -> bool
    ensures { result ≡ counted.is_inside marks.now inner outer }
{
    let mut place = inner;
    for _ in 0..marks.len() {
        let Some(next) = outer_of(marks, place) else {
            return false;
        };
        if next == outer {
            return true;
        }
        place = next;
    }
    false
}

/// The count of the mark with this index after a pass of another, or of itself.
fn count_after(marks: &[Mark], passed: usize, place: usize, count: u16) -> u16
    requires { place ≡ passed → count ≤ 9999 }
    ensures { result ≡ (if place == passed then count + 1
        else (if counted.is_inside marks.now place passed then 0 else count)) }
{
    if place == passed {
        count + 1
    } else if is_inside(marks, place, passed) {
        0
    } else {
        count
    }
}

/// Counts a pass of the mark with this index.
pub fn count_pass(counts: &mut [u16; Mark::MOST], marks: &[Mark], passed: usize)
    requires few { length marks.now ≤ 64 }
    requires inside { passed < length marks.now }
    requires short { slice_index counts.old passed ≤ 9999 }
    ensures { take (length marks.now) counts.new
        ≡ counted.passed_from marks.now passed 0 (take (length marks.now) counts.old) }
{
    for place in 0..marks.len() {
        counts[place] = count_after(marks, passed, place, counts[place]);
    }
}
