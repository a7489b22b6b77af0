//! The scan: each key in turn, and each of its hops.

ghost use Rattle.std.specs.Prelude.{◌≡◌, ◌*◌, ◌<◌, length, IfOk};

pub mod found;
pub mod steps;
mod taking;

use crate::cells::Cells;
use crate::keys::Keys;
use crate::leap::Leap;
use base_notes::Times;
use found::Found;
use std::alloc::{AllocError, Global};
use std::sync::ledger::Ledger;
use steps::Steps;

/// What is known when some of the keys have been taken: the latest end at each key, and of all.
///
/// The scan alone makes ends of hops, each at its turn: by its own timing table, keys and leaps,
/// and counted on its own ledger.
#[derive(Drop)]
pub struct Scan<'a, L: Ledger> {
    times: &'a Times,
    pub keys: &'a Keys<'a>,
    /// The leaps of each location, in their order; `None` where they are made for each key.
    pub leaps: &'a [Option<Vec<Leap>>],
    pub cells: Cells,
    steps: Steps<L>,
}

impl<'a, L: Ledger> Scan<'a, L> {
    ghost use Rattle.bound_scan.specs.KeysOf.{AreKeys, order_in, setting_with};
    ghost use Rattle.bound_scan.specs.LeapOf.{HaveLeaps};
    ghost use Rattle.bound_scan.specs.Table.{start_angle};
    ghost use Rattle.bound_scan.specs.ScanOf.{IsDone, IsScanned, order_of, setting_in};

    /// The latest ends at all keys, and of all, on a ledger on which nothing stands yet: each key
    /// is taken once, after all that can raise what is kept there.
    pub fn of(
        alloc: Global,
        times: &'a Times,
        keys: &'a Keys<'a>,
        leaps: &'a [Option<Vec<Leap>>],
        steps: Steps<L>,
    ) -> Result<Scan<'a, L>, AllocError>
        requires none { steps ≡ 0 }
        requires keys { AreKeys keys.now }
        requires leaps { HaveLeaps (setting_with keys.now times.now) (order_in keys.now) leaps.now }
        ensures done { IfOk result IsDone }
        ensures times { IfOk result (λ scan. scan.times.now ≡ times.now) }
        ensures keys { IfOk result (λ scan. scan.keys.now ≡ keys.now) }
    {
        let mut scan = Scan::new(alloc, times, keys, leaps, steps)?;
        for leading in 0..keys.counts {
            scan.take_round(leading)?;
        }
        Ok(scan)
    }

    /// The one start angle, that behind the start's: 0 to 49.
    pub fn start_angle(&self) -> u64
        ensures { result ≡ start_angle (setting_in self.now).start }
    {
        self.keys.start_angle()
    }

    /// What it has found.
    pub fn into_found(self) -> Found<L>
        requires { IsDone self }
        ensures cells { result.cells ≡ self.entry.cells }
        ensures steps { result.steps ≡ self.entry.steps }
    {
        Found::of(self.cells, self.steps)
    }

    /// Nothing taken yet: the start's key alone keeps something, the moment of the start.
    fn new(
        alloc: Global,
        times: &'a Times,
        keys: &'a Keys<'a>,
        leaps: &'a [Option<Vec<Leap>>],
        steps: Steps<L>,
    ) -> Result<Scan<'a, L>, AllocError>
        requires keys { AreKeys keys.now }
        requires leaps { HaveLeaps (setting_with keys.now times.now) (order_in keys.now) leaps.now }
        requires none { steps ≡ 0 }
        ensures scanned { IfOk result (λ scan. IsScanned scan 0) }
        ensures times { IfOk result (λ scan. scan.times.now ≡ times.now) }
        ensures keys { IfOk result (λ scan. scan.keys.now ≡ keys.now) }
    {
        let (key, start) = (keys.start_key(), keys.start());
        let (words, angle) = (keys.nodes.len(), keys.start_angle());
        let cells = Cells::new(alloc, words, keys.counts, key, start, angle)?;
        Ok(Scan {
            times,
            keys,
            leaps,
            cells,
            steps,
        })
    }
}
