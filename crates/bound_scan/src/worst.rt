//! The entries of the table of worst times.

ghost use Rattle.std.specs.Prelude.{◌<◌};

use base_notes::Mark;
use base_words::Location;
use machine_steps::Counts;

/// An entry of the table of worst times: the most word times that can be used when the search for
/// the instruction at a place begins, with these counts of the marks.
#[derive(Clone, Copy, Debug, PartialEq, Eq)]
pub struct Worst {
    /// The location that is sought.
    pub place: Location,
    /// The drum's angle then, 0 to 49, where the walk began at the angle just behind that of the
    /// start's location.
    pub angle: u8,
    /// The counts of the marks, as one number: the first mark's, and in units of its `most + 1` the
    /// number of the others'.
    pub counts: u32,
    /// The word times used when that search begins.
    pub time: u64,
    pub ghost on_drum: { angle < 50 },
}

impl Worst {
    ghost use Rattle.std.specs.Prelude.{◌≡◌, ◌≤◌, length};
    ghost use Rattle.machine_steps.specs.CountsIn.{counts_in};
    ghost use Rattle.bound_scan.specs.Table.{counts_for};

    /// The counts of the marks, one for each: how often it has been passed since the last pass of a
    /// mark that it stands inside of. The marks are those of the notes.
    pub fn passes(&self, marks: &[Mark]) -> Counts
        requires { length marks.now ≤ 64 }
        ensures { counts_in result marks.now ≡ counts_for marks.now self.now.counts }
    {
        let mut passes = [0; Mark::MOST];
        let mut rest = self.counts;
        for place in 0..marks.len() {
            let many = marks[place].most as u32 + 1;
            passes[place] = (rest % many) as u16;
            rest /= many;
        }
        Counts { passes }
    }
}
