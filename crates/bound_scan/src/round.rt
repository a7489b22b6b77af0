//! The keys that have the same counts.

ghost use Rattle.std.specs.Prelude.{◌≡◌, ◌<◌, ℕ, Some, length};
ghost use Rattle.machine_steps.specs.Counts.{AreWithin};
ghost use Rattle.machine_steps.specs.CountsIn.{counts_in};
ghost use Rattle.bound_scan.specs.KeysOf.{AreKeys, marks_in};
ghost use Rattle.bound_scan.specs.RoundOf.{IsCounted, IsPassed, IsRound, counted_after};

use crate::keys::Keys;
use crate::leap::Leap;
use crate::numbers::{counts_at, leading, table_number};
use base_notes::Mark;
use machine_steps::Counts;

/// Counts of the marks, as the keys and the table of worst times have them.
#[derive(Clone, Copy)]
pub struct Counted {
    /// Their number, with the first mark's leading.
    pub round: usize,
    /// The key of the first location with these counts.
    pub first: usize,
    /// Their number in the table.
    pub number: u32,
}

/// The keys that have the same counts, one of each location.
#[derive(Drop)]
pub struct Round {
    /// Their own counts.
    pub own: Counted,
    /// The counts after a pass of each mark, by the marks' indices; `None` where it is full.
    passed: [Option<Counted>; Mark::MOST],
}

impl Round {
    /// The counts after a leap from here; `None` where a full mark bars it.
    pub fn after(&self, leap: &Leap) -> Option<Counted>
        requires { (mark : ℕ) → leap.now.mark ≡ Some mark → mark < 64 }
        ensures { result ≡ counted_after self.now leap.now.mark }
    {
        match leap.mark {
            Some(mark) => self.passed[mark as usize],
            None => Some(self.own),
        }
    }
}

impl Keys<'_> {
    /// Counts as the keys and the table have them.
    fn counted(&self, counts: Counts) -> Counted
        requires keys { AreKeys self.now }
        requires within { AreWithin (marks_in self.now) (counts_in counts (marks_in self.now)) }
        ensures { IsCounted self.now.accepted.now (counts_in counts (marks_in self.now)) result }
    {
        let round = leading(self.marks(), counts);
        Counted {
            round,
            first: round * self.nodes.len(),
            number: table_number(self.marks(), counts),
        }
    }

    /// The counts after a pass of the mark with this index; `None` where it is full.
    fn counted_after(&self, counts: Counts, mark: usize) -> Option<Counted>
        requires keys { AreKeys self.now }
        requires within { AreWithin (marks_in self.now) (counts_in counts (marks_in self.now)) }
        requires there { mark < length (marks_in self.now) }
        ensures { IsPassed self.now.accepted.now (counts_in counts (marks_in self.now)) mark
            result }
    {
        let Some(passed) = counts.passed_mark(self.marks(), mark) else {
            return None;
        };
        Some(self.counted(passed))
    }

    /// The keys with the counts of this number, with the first mark's leading.
    pub fn round(&self, leading: usize) -> Round
        requires keys { AreKeys self.now }
        requires below { leading < self.now.counts }
        ensures { IsRound self.now.accepted.now leading result }
    {
        let marks = self.marks();
        let counts = counts_at(marks, leading);
        let mut passed = [None; Mark::MOST];
        for place in 0..marks.len() {
            passed[place] = self.counted_after(counts, place);
        }
        Round {
            own: self.counted(counts),
            passed,
        }
    }
}
