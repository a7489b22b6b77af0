//! The walk whose end is the latest of all that a finished scan keeps.

ghost use Rattle.std.specs.Prelude.{◌≡◌, ℕ, ◌-◌, ◌%◌, ◌<◌, ◌≤◌, length, map, slice_get};
ghost use Rattle.std.specs.Prelude.{slice_index, Some};
ghost use Rattle.std.specs.Prelude.{IfOk};
ghost use Rattle.std.specs.Option.{option_map};
ghost use Rattle.flow_graph.specs.Hops.{Hop as HopOf, hops};
ghost use Rattle.flow_graph.specs.Seen.{seen_hop};
ghost use Rattle.flow_walks.specs.Visited.{AreLongest, IsWalkOf, seen_visit, visited};
ghost use Rattle.bound_scan.specs.AnalysisOf.{ArePasses};
ghost use Rattle.bound_scan.specs.InCells.{kept_in};
ghost use Rattle.bound_scan.specs.KeysOf.{marks_in};
ghost use Rattle.bound_scan.specs.ScanOf.{IsDone, order_of, setting_in, size_in};
ghost use Rattle.bound_scan.specs.Scanned.{cell_at, IsEndOf, IsKeyHop};
ghost use Rattle.bound_scan.specs.Table.{start_angle};
ghost use Rattle.bound_scan.specs.TakenOf.{taken_of};

use crate::key_hop::KeyHop;
use crate::latest::Latest;
use crate::scan::Scan;
use base_notes::Mark;
use flow_graph::Hop;
use flow_walks::{Visit, no_passes};
use std::alloc::{AllocError, Global};
use std::sync::ledger::Ledger;

/// A walk, and how often it passes each mark, by the marks' indices; what stands past the last mark
/// means nothing.
#[derive(Drop)]
pub struct Trace {
    pub visits: Vec<Visit>,
    pub passed: [u64; Mark::MOST],
}

impl<L: Ledger> Scan<'_, L> {
    /// The hop of this number of a location, of this index: one of its leaps, or, where none are
    /// kept, found among its hops.
    fn hop_at(&self, index: usize, number: usize) -> Option<Hop>
        requires done { IsDone self.now }
        requires there { index < length (order_of self.now) }
        ensures { (place : ℕ) → slice_get (order_of self.now) index ≡ Some place
            → slice_get (hops (setting_in self.now).loads (setting_in self.now).notes place) number
            ≡ option_map seen_hop result }
    {
        match &self.leaps[index] {
            Some(leaps) => Some(leaps.get(number)?.hop),
            None => self.keys.node(index).hops.nth(number),
        }
    }

    /// The hop of a key, of whose location this is the index, between the word times used when it
    /// begins and when it ends.
    fn visit(&self, origin: KeyHop, index: usize, begin: Latest, end: Latest) -> Visit
        requires done { IsDone self.now }
        requires index { index ≡ origin.key % length (order_of self.now) }
        requires from { IsEndOf (setting_in self.now) (order_of self.now) (size_in self.now)
            (kept_in self.now.cells) origin end.clock }
        requires begun { cell_at (kept_in self.now.cells) origin.key ≡ Some begin }
        requires later { begin.clock ≤ end.clock }
        ensures { let angle = start_angle (setting_in self.now).start in
            (hop : HopOf) → IsKeyHop (setting_in self.now) (order_of self.now) origin hop
            → seen_visit result ≡ visited (taken_of (setting_in self.now) (order_of self.now)
            origin.key hop (begin.clock - angle) (end.clock - angle)) }
    {
        let angle = self.start_angle();
        let Some(hop) = self.hop_at(index, origin.number as usize) else {
            unreachable!()
        };
        Visit {
            place: self.keys.location(index),
            instruction: hop.instruction,
            way: hop.way,
            begun: begin.clock - angle,
            took: (end.clock - begin.clock) as u32,
        }
    }

    /// The walk whose end is the latest of all, followed back from it, from the start angle behind
    /// the start's; and how often it passes each mark.
    pub fn walk(&self, alloc: Global) -> Result<Trace, AllocError>
        requires { IsDone self.now }
        ensures walk { let angle = start_angle (setting_in self.now).start in
            IfOk result (λ trace. IsWalkOf (setting_in self.now) angle
            (self.now.cells.last.clock - angle) (map seen_visit trace.visits.items)) }
        ensures longest { IfOk result (λ trace. AreLongest (setting_in self.now)
            (start_angle (setting_in self.now).start) (map seen_visit trace.visits.items)) }
        ensures passed { IfOk result (λ trace. ArePasses (marks_in self.now.keys.now)
            (map seen_visit trace.visits.items) trace.passed) }
    {
        let marks = self.keys.marks();
        let mut visits = Vec::new(alloc);
        let mut passed = no_passes();
        let mut end = self.cells.last();
        let (mut near, mut first) = (0, 0);
        while let Some(origin) = end.origin {
            let key = origin.key as usize;
            let Some((entry, begin)) = self.cells.kept_at(key, near) else {
                unreachable!()
            };
            near = entry;
            let index = self.keys.index_at(key, first);
            first = key - index;
            let visit = self.visit(origin, index, begin, end);
            visit.count_passes(marks, &mut passed);
            visits.push(visit)?;
            end = begin;
        }
        visits.reverse();
        Ok(Trace { visits, passed })
    }
}
