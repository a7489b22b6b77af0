//! How far a walk is told.

ghost use Rattle.std.specs.Prelude.{◌≤◌, is_some};
ghost use Rattle.std.specs.List.{count_by};

/// How far a walk is told.
#[derive(Drop)]
pub struct Progress {
    /// How many parts have begun.
    pub begun: usize,
    /// The number of each part that has begun, by that of its piece.
    pub parts: Vec<Option<usize>>,
    /// The word times used.
    pub time: u128,
    pub ghost few: { begun ≤ count_by is_some parts.items },
}

impl Progress {
    ghost use Rattle.std.specs.Prelude.{◌≡◌, ◌<◌, suc, None, length};
    ghost use Rattle.print_ceilings.specs.RoundsText.{one_more};
    ghost use Rattle.print_ceilings.specs.ProgressOf.{told_of};

    /// The number of the part that the piece with this number is, where it has begun.
    pub fn part(&self, number: usize) -> Option<usize>
        requires { number < length self.now.parts.items }
        ensures { result ≡ (told_of self.now).part number }
    {
        self.parts[number]
    }

    /// One part more begins, the piece with this number: the number of the part.
    pub fn begin(&mut self, number: usize) -> usize
        requires within { number < length self.old.parts.items }
        requires free { (told_of self.old).part number ≡ None }
        ensures part { result ≡ suc self.old.begun }
        ensures told { told_of self.new ≡ one_more number (told_of self.old) }
        ensures parts { length self.new.parts.items ≡ length self.old.parts.items }
    {
        let part = self.begun + 1;
        self.parts[number] = Some(part);
        self.begun = part;
        part
    }
}
