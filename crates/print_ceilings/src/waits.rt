//! Where the word times of a walk in rounds go, by instruction and way.

ghost use Rattle.std.specs.Prelude.{◌≡◌, ◌^◌, ◌<◌, List};
ghost use Rattle.base_notes.specs.Entries.{entry_in};
ghost use Rattle.flow_graph.specs.Walk.{Setting};
ghost use Rattle.flow_walks.specs.Visited.{Visited};
ghost use Rattle.ceiling_rounds.specs.InRounds.{angle_of, total_of};
ghost use Rattle.print_hops.specs.KindsOf.{waited_of};
ghost use Rattle.print_ceilings.specs.PieceIndexOf.{IsWalkWith};
ghost use Rattle.print_ceilings.specs.SpelledOut.{AreSpelledOut};

mod adding;
mod alone;
mod kind_row;
mod listing;

use adding::{by_kind, waited};
use base_notes::Times;
use ceiling_rounds::InRounds;
use kind_row::KindRow;
pub use listing::put_rounds_waits;
use print_hops::Waited;
use std::alloc::{AllocError, Global};

/// What all hops of a walk in rounds wait. The timing table has to be the one with which the walk
/// was found. It takes no memory.
pub fn all_waits_in_rounds(walk: &InRounds, times: &Times) -> Waited
    requires right { IsWalkWith times.now walk.now }
    requires early { total_of walk.now < 2 ^ 127 }
    ensures { (g : Setting) (visits : List Visited) → g.times ≡ entry_in times.now
        → AreSpelledOut g walk.now visits
        → result ≡ waited_of (entry_in times.now) (angle_of walk.now) visits }
{
    waited(walk, times)
}

/// Where the word times of a walk in rounds go: what its hops of each kind take in all, the dearest
/// kind first, and what all its hops wait. Hops are of one kind that begin at one location, with
/// one instruction, and end in one way.
#[derive(Drop)]
pub struct WaitsInRounds {
    rows: Vec<KindRow>,
    waited: Waited,
}

impl WaitsInRounds {
    ghost use Rattle.std.specs.Prelude.{IfOk};
    ghost use Rattle.print_ceilings.specs.RoundsWaitsOf.{rows_in, AreWaitsOf};

    /// Where the word times of a walk go. The timing table has to be the one with which it was
    /// found.
    ///
    /// # Errors
    ///
    /// [`AllocError`] where there is no memory.
    pub fn of(alloc: Global, walk: &InRounds, times: &Times) -> Result<WaitsInRounds, AllocError>
        requires right { IsWalkWith times.now walk.now }
        requires early { total_of walk.now < 2 ^ 127 }
        ensures { IfOk result (AreWaitsOf (entry_in times.now) walk.now) }
    {
        let mut by_kind = by_kind(alloc, walk, times)?;
        by_kind.sort_by_key(|_, row| (u128::MAX - row.sums.time, row.number))?;
        let rows = Vec::from_slice(alloc, by_kind.values().as_slice())?;
        let waited = all_waits_in_rounds(walk, times);
        Ok(WaitsInRounds { rows, waited })
    }

    /// The rows, the dearest first.
    fn rows(&self) -> &[KindRow]
        ensures { result.now ≡ rows_in self.now }
    {
        &self.rows
    }
}
