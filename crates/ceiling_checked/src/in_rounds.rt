//! How many passes one round of a mark has at most: its own, and those of the marks inside of it.

ghost use Rattle.std.specs.Prelude.{◌≡◌, ◌+◌, ◌*◌, ◌<◌, if◌then◌else◌, Some, IfOk, length};
ghost use Rattle.std.specs.Prelude.{slice_get};
ghost use Rattle.base_notes.specs.declared.notes.mark.Mark.{Mark};
ghost use Rattle.base_notes.specs.Allowed.{StandInEarlier};
ghost use Rattle.machine_steps.specs.Counts.{is_inside};
ghost use Rattle.flow_graph.specs.Accepted.{capped};
ghost use Rattle.ceiling_checked.specs.InRounds as said;
ghost use Rattle.ceiling_checked.specs.InRounds.{AreInRounds};

use base_notes::Mark;
use flow_acceptance::counts::{LARGEST, product};
use machine_steps::is_inside;
use std::alloc::{AllocError, Global};

/// The sum of two numbers; 2^127 where that is more.
pub fn sum(one: u128, other: u128) -> u128
    ensures { result ≡ capped (one + other) }
{
    one.saturating_add(other).min(LARGEST)
}

/// How many passes of the mark with index `inner` and those inside of it there are in one round of
/// the mark with index `outer`, by the passes in one of its own; 2^127 where that is more.
fn passes_of(marks: &[Mark], inner: usize, outer: usize, round: u128) -> u128
    requires { inner < length marks.now }
    ensures { (mark : Mark) → slice_get marks.now inner ≡ Some mark
        → result ≡ capped (if is_inside marks.now inner outer then mark.most * round else 0) }
{
    if is_inside(marks, inner, outer) {
        product(u128::from(marks[inner].most), round)
    } else {
        0
    }
}

/// How many passes of marks inside of the one with this index there are in one round of it, by the
/// passes in a round of each; 2^127 where that is more.
fn inside_of(marks: &[Mark], outer: usize, rounds: &[u128]) -> u128
    requires { length rounds.now ≡ length marks.now }
    ensures { result ≡ capped (said.passes_inside marks.now outer 0 marks.now rounds.now) }
{
    let mut passes: u128 = 0;
    for index in 0..marks.len() {
        passes = sum(passes, passes_of(marks, index, outer, rounds[index]));
    }
    passes
}

/// How many passes one round of each mark has at most; 2^127 where that is more.
pub fn rounds_of(alloc: Global, marks: &[Mark]) -> Result<Vec<u128>, AllocError>
    requires { StandInEarlier 0 marks.now }
    ensures { IfOk result (λ rounds. AreInRounds capped marks.now rounds.items) }
{
    let count = marks.len();
    let mut rounds = vec![in alloc; 0; count]?;
    for place in 0..count {
        let index = count - 1 - place;
        rounds[index] = sum(1, inside_of(marks, index, &rounds));
    }
    Ok(rounds)
}

/// How many passes of all marks there are at most, by the passes in a round of each; 2^127 where
/// that is more.
pub fn passes_in_all(marks: &[Mark], rounds: &[u128]) -> u128
    requires { length rounds.now ≡ length marks.now }
    ensures { result ≡ capped (said.passes_in_all marks.now rounds.now) }
{
    let mut passes: u128 = 0;
    for (index, mark) in marks.iter().enumerate() {
        passes = sum(passes, product(u128::from(mark.most), rounds[index]));
    }
    passes
}
