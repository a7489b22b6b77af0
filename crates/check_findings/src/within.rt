/// Inside which other mark the mark of an edge that closes a loop is to stand.
#[derive(Clone, Copy, Debug, PartialEq, Eq)]
pub enum Within {
    /// Inside none: its passes are counted over the whole run.
    Run,
    /// Inside the mark of this number, from 1: the marks of the notes have the first numbers, and
    /// then come those of the edges that lack one, in the order of their first edges.
    Mark(usize),
    /// Its loop stands inside several ways back of one loop, on which different marks stand. A mark
    /// says inside one other mark at most, and none of these is passed each time that loop goes
    /// round: so its passes are counted over the whole run.
    SeveralWays,
    /// It shares the mark of the first edge before it that goes back to the same location: some
    /// loop stands inside those of several such edges.
    Shared,
}

impl Within {
    ghost use Rattle.std.specs.Prelude.{◌≡◌};
    ghost use Rattle.check_findings.specs.Shared.{is_shared};

    /// Whether the edge shares the mark of one before it.
    pub fn is_shared(&self) -> bool
        ensures { result ≡ is_shared self.now }
    {
        matches!(self, Within::Shared)
    }
}
