//! How often marks are passed, and that a full mark isn't passed again.

ghost use Rattle.std.specs.Prelude.{◌≡◌, ◌≤◌, ◌<◌, List, length, IfSome, MatchOption};
ghost use Rattle.machine_steps.specs.Counts.{after_pass, no_counts, passed_from, AreWithin};
ghost use Rattle.machine_steps.specs.CountsIn.{counts_in};

use crate::passes::count_pass;
use base_notes::Mark;
use base_words::Location;

/// How often each mark was passed since the last pass of one that it stands inside of, by the
/// marks' indices. The counts past the last mark mean nothing.
#[derive(Clone, Copy)]
pub struct Counts {
    pub passes: [u16; Mark::MOST],
}

impl Counts {
    /// No mark passed yet.
    pub fn none() -> Counts
        ensures { (marks : List Mark) → length marks ≤ 64
            → counts_in result marks ≡ no_counts marks }
    {
        Counts {
            passes: [0; Mark::MOST],
        }
    }

    /// The counts after a pass of the mark with this index; `None` where it is full.
    pub fn passed_mark(self, marks: &[Mark], place: usize) -> Option<Counts>
        requires few { length marks.now ≤ 64 }
        requires inside { place < length marks.now }
        ensures counted { let after = passed_from marks.now place 0 (counts_in self marks.now) in
            MatchOption result (¬ AreWithin marks.now after)
            (λ counts. counts_in counts marks.now ≡ after) }
        ensures within { AreWithin marks.now (counts_in self marks.now)
            → IfSome result (λ counts. AreWithin marks.now (counts_in counts marks.now)) }
    {
        if self.passes[place] >= marks[place].most {
            return None;
        }
        let mut counts = self;
        count_pass(&mut counts.passes, marks, place);
        Some(counts)
    }

    /// The counts after a step from the one location to the other; `None` where that step passes a
    /// mark more often than the mark allows.
    pub fn passed(self, marks: &[Mark], from: Location, onto: Location) -> Option<Counts>
        requires few { length marks.now ≤ 64 }
        ensures counted { let after =
            after_pass marks.now from.number onto.number (counts_in self marks.now) in
            MatchOption result (¬ AreWithin marks.now after)
            (λ counts. counts_in counts marks.now ≡ after) }
        ensures within { AreWithin marks.now (counts_in self marks.now)
            → IfSome result (λ counts. AreWithin marks.now (counts_in counts marks.now)) }
    {
        match Mark::on_edge(marks, from, onto) {
            Some(place) => self.passed_mark(marks, place),
            None => Some(self),
        }
    }
}
