//! The hops of a walk, as they are handed out.

ghost use Rattle.std.specs.Prelude.{◌≡◌, ℕ, ◌+◌, ◌^◌, ◌<◌, ◌≤◌, length, slice_get, slice_index};
ghost use Rattle.std.specs.Prelude.{Some};
ghost use Rattle.base_notes.specs.declared.notes.mark.Mark.{Mark as MarkOf};
ghost use Rattle.machine_steps.specs.WaysLeft.{seen_way};
ghost use Rattle.flow_graph.specs.Walk.{passes_by};

use base_notes::Mark;
use base_words::{Instruction, Location};
use machine_steps::Way;

/// A hop of a walk, and when it was taken.
#[derive(Clone, Copy, Debug, PartialEq, Eq)]
pub struct Visit {
    /// The location at which it begins.
    pub place: Location,
    /// The instruction there.
    pub instruction: Instruction,
    /// How it ends.
    pub way: Way,
    /// The word times that it takes. (The field stands here, beside others as narrow.)
    pub took: u32,
    /// The word times used when it begins.
    pub begun: u64,
    /// As the bound: no hop of a walk begins later.
    pub ghost early: { begun < 2 ^ 50 },
}

/// No passes of any mark yet, by the marks' indices.
pub fn no_passes() -> [u64; Mark::MOST]
    ensures { (k : ℕ) → slice_index result k ≡ 0 }
{
    [0; Mark::MOST]
}

impl Visit {
    /// The word times used when it ends.
    pub fn ended(&self) -> u64
        ensures { result ≡ self.now.begun + self.now.took }
    {
        self.begun + u64::from(self.took)
    }

    /// How often the hop passes a mark: once where it goes along the mark's edge, else never.
    pub fn passes(&self, mark: &Mark) -> u64
        ensures { result ≡ passes_by mark.now self.now.place.number (seen_way self.now.way) }
    {
        match self.way {
            Way::To(onto) if mark.is_on(self.place, onto) => 1,
            _ => 0,
        }
    }

    /// Counts the hop's passes of marks, by their indices.
    #[inline(always)]
    pub fn count_passes(&self, marks: &[Mark], passed: &mut [u64; Mark::MOST])
        requires marks { length marks.now ≤ 64 }
        requires few { (k : ℕ) → slice_index passed.old k < 2 ^ 63 }
        ensures counted { (k : ℕ) (mark : MarkOf) → slice_get marks.now k ≡ Some mark
            → slice_index passed.new k ≡ slice_index passed.old k
            + passes_by mark self.now.place.number (seen_way self.now.way) }
        ensures once { (k : ℕ) → slice_index passed.new k ≤ slice_index passed.old k + 1 }
        ensures others { (k : ℕ) → length marks.now ≤ k
            → slice_index passed.new k ≡ slice_index passed.old k }
    {
        for (place, mark) in marks.iter().enumerate() {
            passed[place] += self.passes(mark);
        }
    }
}
