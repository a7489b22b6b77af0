ghost use Rattle.std.specs.Prelude.{◌≡◌, ◌↔◌, ◌^◌, ◌<◌, ◌≤◌, IsTrue, length, slice_get};

use base_words::Instruction;

/// A pattern: which instructions may stand at a location whose word the program alters.
#[derive(Clone, Copy, Debug, PartialEq, Eq)]
pub struct Pattern {
    /// The operation's two digits, as a number.
    pub op: u8,
    /// The least data address.
    pub d_from: u16,
    /// The greatest data address.
    pub d_to: u16,
    /// The address of the next instruction.
    pub i: u16,
    pub ghost two: { op < 100 },
    pub ghost ordered: { d_from ≤ d_to },
    pub ghost four: { d_to < 10 ^ 4 },
    pub ghost next_four: { i < 10 ^ 4 },
}

impl Pattern {
    ghost use Rattle.base_notes.specs.Allowed.{Matches, matching};

    /// Whether the instruction has the pattern's operation and I, and a D within its range.
    pub fn matches(self, instruction: Instruction) -> bool
        ensures { IsTrue result ↔ Matches self instruction }
    {
        instruction.op == self.op
            && self.d_from <= instruction.d
            && instruction.d <= self.d_to
            && instruction.i == self.i
    }

    /// How many instructions match it: 1 to 10,000.
    pub fn len(self) -> usize
        ensures { result ≡ length (matching self) }
    {
        (self.d_to - self.d_from) as usize + 1
    }

    /// The instruction with this index, from 0, of those that match, in ascending order of D;
    /// `None` for an index from [`Pattern::len`] on.
    pub fn at(self, place: usize) -> Option<Instruction>
        ensures { result ≡ slice_get (matching self) place }
    {
        if place >= self.len() {
            return None;
        }
        Some(Instruction {
            op: self.op,
            d: self.d_from + place as u16,
            i: self.i,
        })
    }
}
