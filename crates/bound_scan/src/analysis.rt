//! What an analysis hands out: the bound, the table of worst times, and a walk.

ghost use Rattle.std.specs.Prelude.{◌≡◌, ◌*◌, ◌^◌, ◌<◌, ◌≤◌, length, map};
ghost use Rattle.flow_walks.specs.Visited.{AreInTime, seen_visit};

use crate::cells::Cells;
use crate::worst::Worst;
use base_notes::Mark;
use flow_walks::Visit;
use std::alloc::{AllocError, Global};

/// What [`analyse`](crate::analyse) finds for a deck with its timing table and notes. The hops of
/// its walk follow one another in time, from 0 to the bound, and are 4,000,000 at most.
///
/// Its bound, table and turns are read from the one table that was raised, entry by entry, by ends
/// of hops, which is then given up.
#[derive(Debug, Drop)]
pub struct Analysis {
    table: Vec<Worst>,
    bound: u64,
    /// The start angle of the walk.
    angle: u8,
    words: usize,
    counts: usize,
    turns: u64,
    walk: Vec<Visit>,
    /// How often the walk passes each mark, by the marks' indices in the notes; what stands past
    /// the last mark means nothing.
    passed: [u64; Mark::MOST],
    ghost in_time: { ∥ AreInTime 0 (map seen_visit walk.items) bound ∥₁ },
    ghost on_drum: { angle < 50 },
    ghost below: { bound < 2 ^ 50 },
    ghost few: { length walk.items ≤ 4000000 },
    ghost limit: { length table.items ≤ counts * words },
}

impl Analysis {
    ghost use Rattle.std.specs.Prelude.{IfOk, slice_index};
    ghost use Rattle.bound_scan.specs.AnalysisOf.{angle_of, bound_of, counts_in_all, passed_of};
    ghost use Rattle.bound_scan.specs.AnalysisOf.{rows_of, turns_of, visits_of, words_of};
    ghost use Rattle.bound_scan.specs.OfCells.{Backs, IsOfCells};
    ghost use Rattle.bound_scan.specs.RowOf.{row_in};

    /// The analysis of a table as it was raised by so many ends, with a walk that takes as long as
    /// its latest end, and how often that passes each mark. (That the table is finished and the
    /// walk is one is said by who calls this.)
    pub(crate) fn of(
        alloc: Global,
        cells: Cells,
        turns: u64,
        walk: Vec<Visit>,
        passed: [u64; Mark::MOST],
    ) -> Result<Analysis, AllocError>
        requires { Backs cells (map seen_visit walk.items) }
        ensures cells { IfOk result (IsOfCells cells turns) }
        ensures walk { IfOk result (λ analysis. analysis.walk ≡ walk) }
        ensures passed { IfOk result (λ analysis. analysis.passed ≡ passed) }
    {
        let angle = cells.angle();
        let bound = cells.last().clock - angle;
        let (words, counts) = (cells.words(), cells.counts());
        let table = cells.into_table(alloc)?;
        Ok(Analysis {
            table,
            bound,
            angle: angle as u8,
            words,
            counts,
            turns,
            walk,
            passed,
        })
    }

    /// The bound, in word times, below 2^50: no run that keeps to the notes ever uses more, and
    /// some walk uses exactly as many.
    pub fn bound(&self) -> u64
        ensures told { result ≡ bound_of self.now }
        ensures below { result < 2 ^ 50 }
    {
        self.bound
    }

    /// The table of worst times: one entry for each location and counts of the marks that some walk
    /// arrives at. Nothing is promised of their order.
    pub fn table(&self) -> &[Worst]
        ensures { map row_in result.now ≡ rows_of self.now }
    {
        &self.table
    }

    /// The drum's angle when the walk of [`walk`](Analysis::walk) begins, 0 to 49.
    pub fn angle(&self) -> u8
        ensures { result ≡ angle_of self.now }
    {
        self.angle
    }

    /// The hops of a walk that uses exactly as many word times as the bound, in order: 4,000,000 at
    /// most, and none where the bound is 0.
    pub fn walk(&self) -> &[Visit]
        ensures told { map seen_visit result.now ≡ visits_of self.now }
        ensures in_time { ∥ AreInTime 0 (visits_of self.now) (bound_of self.now) ∥₁ }
        ensures few { length result.now ≤ 4000000 }
    {
        &self.walk
    }

    /// How many counts the marks can have: the product of `most + 1` over them, 1 to 4,000,000.
    pub fn counts(&self) -> usize
        ensures { result ≡ counts_in_all self.now }
    {
        self.counts
    }

    /// How many locations are executed, 1 to 2004.
    pub fn words(&self) -> usize
        ensures { result ≡ words_of self.now }
    {
        self.words
    }

    /// How many ends of hops the analysis has made: for each entry of the table as many as its
    /// location has hops.
    pub fn turns(&self) -> u64
        ensures { result ≡ turns_of self.now }
    {
        self.turns
    }

    /// How often the whole walk passes the mark with this index in the notes, from 0, whatever the
    /// mark stands inside of. For an index past the last mark the number means nothing.
    pub fn passed(&self, mark: usize) -> u64
        requires { mark < 64 }
        ensures { result ≡ slice_index (passed_of self.now) mark }
    {
        self.passed[mark]
    }
}
