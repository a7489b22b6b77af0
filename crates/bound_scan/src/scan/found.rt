//! What a scan has found.

ghost use Rattle.std.specs.Prelude.{◌≡◌, ◌≤◌};

use super::steps::Steps;
use crate::cells::Cells;
use std::sync::ledger::Ledger;

/// What a finished scan has found, with its own ledger: the table of worst times and the latest
/// end, as they were raised, and how many ends were made for them.
#[derive(Drop)]
pub struct Found<L: Ledger> {
    cells: Cells,
    steps: Steps<L>,
    ghost after: { cells.entries.angle ≤ cells.last.clock },
}

impl<L: Ledger> Found<L> {
    ghost use Rattle.bound_scan.specs.FoundOf.{found_bound, found_turns};

    /// What was found in these cells, with the ends that were made for them.
    pub(super) fn of(cells: Cells, steps: Steps<L>) -> Found<L>
        requires { cells.entries.angle ≤ cells.last.clock }
        ensures cells { result.cells ≡ cells }
        ensures steps { result.steps ≡ steps }
    {
        Found { cells, steps }
    }

    /// Its cells and its ledger.
    pub(crate) fn into_parts(self) -> (Cells, Steps<L>)
        ensures cells { result.0 ≡ self.cells }
        ensures steps { result.1 ≡ self.steps }
        ensures after { self.cells.entries.angle ≤ self.cells.last.clock }
    {
        (self.cells, self.steps)
    }

    /// The bound, in word times: the time from the start angle to the latest end of all.
    pub fn bound(&self) -> u64
        ensures { result ≡ found_bound self.now }
    {
        self.cells.last().clock - self.cells.angle()
    }

    /// How many ends of hops were made: for each entry of the table as many as its location has
    /// hops.
    pub fn turns(&self) -> u64
        ensures { result ≡ found_turns self.now }
    {
        self.steps.made()
    }
}
