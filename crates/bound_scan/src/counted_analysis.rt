//! An analysis with its ledger.

ghost use Rattle.std.specs.Prelude.{◌≡◌, IfOk, map};
ghost use Rattle.flow_walks.specs.Visited.{seen_visit};

use crate::analysis::Analysis;
use crate::scan::found::Found;
use crate::scan::steps::Steps;
use base_notes::Mark;
use flow_walks::Visit;
use std::alloc::{AllocError, Global};
use std::sync::ledger::Ledger;

/// An analysis, with the ledger on which the ends of hops were counted that raised its table: as
/// many as its [`turns`](Analysis::turns).
#[derive(Drop)]
pub struct CountedAnalysis<L: Ledger> {
    analysis: Analysis,
    steps: Steps<L>,
    ghost counted: { steps ≡ analysis.turns },
}

impl<L: Ledger> CountedAnalysis<L> {
    ghost use Rattle.bound_scan.specs.OfCells.{Backs, IsOfCells};

    /// The analysis of what a scan has found, with a walk that takes as long as its latest end, and
    /// how often that passes each mark.
    pub(crate) fn of(
        alloc: Global,
        found: Found<L>,
        walk: Vec<Visit>,
        passed: [u64; Mark::MOST],
    ) -> Result<CountedAnalysis<L>, AllocError>
        requires { Backs found.cells (map seen_visit walk.items) }
        ensures cells { IfOk result (λ counted.
            IsOfCells found.cells found.steps counted.analysis) }
        ensures walk { IfOk result (λ counted. counted.analysis.walk ≡ walk) }
        ensures passed { IfOk result (λ counted. counted.analysis.passed ≡ passed) }
    {
        let (cells, steps) = found.into_parts();
        let analysis = Analysis::of(alloc, cells, steps.made(), walk, passed)?;
        Ok(CountedAnalysis { analysis, steps })
    }

    /// The analysis.
    pub fn analysis(&self) -> &Analysis
        ensures { result.now ≡ self.now.analysis }
    {
        &self.analysis
    }

    /// The analysis, without its ledger.
    pub fn into_analysis(self) -> Analysis
        ensures { result ≡ self.analysis }
    {
        self.analysis
    }
}
