//! The numbers that stand for counts of marks.

ghost use Rattle.std.specs.Prelude.{◌≡◌, ◌≤◌, ◌<◌, length};
ghost use Rattle.machine_steps.specs.Counts.{AreWithin};
ghost use Rattle.machine_steps.specs.CountsIn.{counts_in};
ghost use Rattle.flow_graph.specs.Accepted.{counts_of};
ghost use Rattle.flow_graph.specs.Passes.{leading as leading_in};
ghost use Rattle.bound_scan.specs.Digits.{digits};
ghost use Rattle.bound_scan.specs.Table.{number_of};

use base_notes::Mark;
use machine_steps::Counts;

/// The counts that a number below 4,000,000 stands for: the last mark's, and in units of its
/// `most + 1` the number of the others'.
pub fn counts_at(marks: &[Mark], number: usize) -> Counts
    requires few { length marks.now ≤ 64 }
    requires below { number < counts_of marks.now }
    requires small { counts_of marks.now ≤ 4000000 }
    ensures { counts_in result marks.now ≡ digits marks.now number }
{
    let mut passes = [0; Mark::MOST];
    let mut rest = number;
    for place in (0..marks.len()).rev() {
        let many = marks[place].most as usize + 1;
        passes[place] = (rest % many) as u16;
        rest /= many;
    }
    Counts { passes }
}

/// The number that `counts_at` makes these counts from: a pass of a mark raises it.
pub fn leading(marks: &[Mark], counts: Counts) -> usize
    requires few { length marks.now ≤ 64 }
    requires small { counts_of marks.now ≤ 4000000 }
    requires within { AreWithin marks.now (counts_in counts marks.now) }
    ensures { result ≡ leading_in marks.now (counts_in counts marks.now) }
{
    let mut number = 0;
    for place in 0..marks.len() {
        number = number * (marks[place].most as usize + 1) + counts.passes[place] as usize;
    }
    number
}

/// The number of the counts as in the table of worst times: the first mark's, and in units of
/// its `most + 1` the number of the others'.
pub fn table_number(marks: &[Mark], counts: Counts) -> u32
    requires few { length marks.now ≤ 64 }
    requires small { counts_of marks.now ≤ 4000000 }
    requires within { AreWithin marks.now (counts_in counts marks.now) }
    ensures { result ≡ number_of marks.now (counts_in counts marks.now) }
{
    let mut number = 0;
    for place in (0..marks.len()).rev() {
        number = number * (marks[place].most as u32 + 1) + counts.passes[place] as u32;
    }
    number
}
