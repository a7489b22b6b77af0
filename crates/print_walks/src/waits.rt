//! Where the word times of the worst walk of an analysis go, by instruction and way.

ghost use Rattle.std.specs.Prelude.{◌≡◌};
ghost use Rattle.base_notes.specs.Entries.{entry_in};
ghost use Rattle.bound_scan.specs.AnalysisOf.{angle_of, visits_of};
ghost use Rattle.print_hops.specs.KindsOf.{waited_of};

mod adding;
mod listing;
mod wait;

use adding::{by_kind, waited};
use base_notes::Times;
use bound_scan::Analysis;
pub use listing::put_waits;
use print_hops::Waited;
use std::alloc::{AllocError, Global};
use wait::Wait;

/// What all hops of the worst walk of an analysis wait. The timing table has to be the one of the
/// analysis. It takes no memory.
pub fn all_waits(analysis: &Analysis, times: &Times) -> Waited
    ensures { result ≡ waited_of (entry_in times.now) (angle_of analysis.now)
        (visits_of analysis.now) }
{
    waited(analysis.walk(), times, analysis.angle())
}

/// Where the word times of a walk go: what the hops of each kind take in all, the dearest kind
/// first, and what all hops wait. Hops are of one kind that begin at one location, with one
/// instruction, and end in one way.
#[derive(Drop)]
pub struct Waits {
    rows: Vec<Wait>,
    waited: Waited,
}

impl Waits {
    ghost use Rattle.std.specs.Prelude.{IfOk};
    ghost use Rattle.print_walks.specs.WaitsOf.{AreWaits};

    /// Where the word times of the walk of an analysis go. The timing table has to be the one of
    /// the analysis.
    ///
    /// # Errors
    ///
    /// [`AllocError`] where there is no memory.
    pub fn of(alloc: Global, analysis: &Analysis, times: &Times) -> Result<Waits, AllocError>
        ensures { IfOk result (AreWaits (entry_in times.now) (angle_of analysis.now)
            (visits_of analysis.now)) }
    {
        let (walk, angle) = (analysis.walk(), analysis.angle());
        let mut by_kind = by_kind(alloc, walk, times, angle)?;
        by_kind.sort_by_key(|_, wait| (u128::MAX - wait.sums.time, wait.first.begun))?;
        let rows = Vec::from_slice(alloc, by_kind.values().as_slice())?;
        let waited = all_waits(analysis, times);
        Ok(Waits { rows, waited })
    }

    /// The rows, the dearest first.
    fn rows(&self) -> &[Wait]
        ensures { result.now ≡ self.now.rows.items }
    {
        &self.rows
    }
}
