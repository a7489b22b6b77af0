//! How a scan takes the keys, and the hops of each.

ghost use Rattle.std.specs.Prelude.{◌≡◌, ◌+◌, ◌*◌, ◌%◌, ◌<◌, ◌∷◌, List, length, OnOk};

use super::Scan;
use super::steps::end::End;
use crate::cells::Onto;
use crate::instruction_search::InstructionSearch;
use crate::leap::Leap;
use crate::recent::Recent;
use crate::round::Round;
use base_words::{Location, REVOLUTION};
use flow_graph::Hops;
use machine_steps::Way;
use machine_steps::moments::found;
use std::alloc::AllocError;
use std::sync::ledger::Ledger;

impl<'a, L: Ledger> Scan<'a, L> {
    ghost use Rattle.machine_steps.specs.Ways.{to};
    ghost use Rattle.machine_steps.specs.WaysLeft.{seen_way};
    ghost use Rattle.flow_graph.specs.Hops.{Hop as HopOf};
    ghost use Rattle.flow_graph.specs.HopsLeft.{hops_left};
    ghost use Rattle.bound_scan.specs.EndOf.{latest_in};
    ghost use Rattle.bound_scan.specs.InCells.{kept_in};
    ghost use Rattle.bound_scan.specs.LeapOf.{AreLeaps, leap_hop};
    ghost use Rattle.bound_scan.specs.Scanned.{Taking};
    ghost use Rattle.bound_scan.specs.ScanOf.{AreCells, Goes, HasRound, IsAgreed, IsReady};
    ghost use Rattle.bound_scan.specs.ScanOf.{IsScanned, IsTurn, hops_of, order_of, place_in};
    ghost use Rattle.bound_scan.specs.ScanOf.{setting_in};
    ghost use Rattle.bound_scan.specs.SearchOf.{IsSearch, end_sought};

    /// Takes the end of a hop that goes on: it raises what is kept at the key onto which that
    /// leads, unless a full mark bars it.
    #[inline(always)]
    fn go_on(
        &mut self,
        round: &Round,
        search: &InstructionSearch,
        number: usize,
        leap: &Leap,
        next: Location,
        end: End,
    ) -> Result<(), AllocError>
        requires ready { IsReady self.old search.now number leap.now }
        requires round { HasRound self.old search.now.key round.now }
        requires next { seen_way leap.now.hop.way ≡ to next.number }
        requires end { latest_in end ≡ end_sought (setting_in self.old) search.now number leap.now }
        ensures goes { OnOk result (Goes (setting_in self.old) (order_of self.old) search.now.key
            next.number (end_sought (setting_in self.old) search.now number leap.now)
            (kept_in self.old.cells) self.old.cells.last
            (kept_in self.new.cells) self.new.cells.last) }
        ensures same { OnOk result (self.new ≡ record self.old { cells = self.new.cells }) }
        ensures cells { OnOk result (AreCells (setting_in self.old) (order_of self.old)
            self.new.cells) }
    {
        let Some(counted) = round.after(leap) else {
            self.cells.bar(end);
            return Ok(());
        };
        let onto = Onto {
            key: counted.first + leap.index as usize,
            round: counted.round,
            location: next,
            counts: counted.number,
        };
        self.cells.raise(end, &onto)?;
        Ok(())
    }

    /// Takes a hop of the key whose instruction is sought, that of this number among the key's, at
    /// its turn.
    #[inline(always)]
    fn take_leap(
        &mut self,
        round: &Round,
        search: &InstructionSearch,
        number: usize,
        leap: &Leap,
    ) -> Result<(), AllocError>
        requires ready { IsReady self.old search.now number leap.now }
        requires turn { IsTurn self.old search.now.key number }
        requires round { HasRound self.old search.now.key round.now }
        ensures same { OnOk result (self.new
            ≡ record self.old { cells = self.new.cells; steps = self.new.steps }) }
        ensures steps { OnOk result (self.new.steps ≡ self.old.steps + 1) }
        ensures cells { OnOk result (AreCells (setting_in self.old) (order_of self.old)
            self.new.cells) }
        ensures agreed { OnOk result (IsAgreed search.now.key (kept_in self.old.cells)
            (kept_in self.new.cells)) }
        ensures taken { OnOk result ((left : List HopOf)
            → Taking (setting_in self.old) (order_of self.old) search.now.key search.now.begun
            (leap_hop leap.now ∷ left) (kept_in self.old.cells) self.old.cells.last
            → Taking (setting_in self.old) (order_of self.old) search.now.key search.now.begun
            left (kept_in self.new.cells) self.new.cells.last) }
    {
        let end = self.end(search, number, leap);
        match leap.hop.way {
            Way::To(next) => self.go_on(round, search, number, leap, next, end),
            Way::Early | Way::Late => {
                self.cells.stop(end);
                Ok(())
            }
        }
    }

    /// Takes the key whose instruction is sought, of whose location these are the leaps.
    fn take_leaps(
        &mut self,
        round: &Round,
        search: &InstructionSearch,
        leaps: &[Leap],
    ) -> Result<(), AllocError>
        requires scanned { IsScanned self.old search.now.key }
        requires below { search.now.key < self.old.keys.now.size }
        requires round { HasRound self.old search.now.key round.now }
        requires search { IsSearch (order_of self.old) (kept_in self.old.cells) search.now }
        requires leaps { AreLeaps (setting_in self.old) (order_of self.old)
            (place_in self.old search.now.key) leaps.now }
        ensures scanned { OnOk result (IsScanned self.new (search.now.key + 1)) }
        ensures same { OnOk result (self.new
            ≡ record self.old { cells = self.new.cells; steps = self.new.steps }) }
    {
        for (number, leap) in leaps.iter().enumerate() {
            self.take_leap(round, search, number, leap)?;
        }
        Ok(())
    }

    /// Takes the key whose instruction is sought, of whose location these are the hops: their leaps
    /// are made for it, one for hops that are alike but for D.
    fn take_hops(
        &mut self,
        round: &Round,
        search: &InstructionSearch,
        left: Hops<'_>,
    ) -> Result<(), AllocError>
        requires scanned { IsScanned self.old search.now.key }
        requires below { search.now.key < self.old.keys.now.size }
        requires round { HasRound self.old search.now.key round.now }
        requires search { IsSearch (order_of self.old) (kept_in self.old.cells) search.now }
        requires hops { hops_left left ≡ hops_of self.old search.now.key }
        ensures scanned { OnOk result (IsScanned self.new (search.now.key + 1)) }
        ensures same { OnOk result (self.new
            ≡ record self.old { cells = self.new.cells; steps = self.new.steps }) }
    {
        let (keys, times) = (self.keys, self.times);
        let angle = search.found % REVOLUTION;
        let mut recent = Recent::none();
        for (number, hop) in left.enumerate() {
            let leap = recent.leap(keys, times, search.location, hop, angle);
            self.take_leap(round, search, number, &leap)?;
        }
        Ok(())
    }

    /// Takes a key of a round, that of the location of this index, if something is kept there: each
    /// of its hops, once.
    fn take_key(&mut self, round: &Round, index: usize) -> Result<(), AllocError>
        requires scanned { IsScanned self.old (round.now.own.first + index) }
        requires index { index < length (order_of self.old) }
        requires below { round.now.own.first + index < self.old.keys.now.size }
        requires round { HasRound self.old (round.now.own.first + index) round.now }
        requires rest { (round.now.own.first + index) % length (order_of self.old) ≡ index }
        ensures scanned { OnOk result (IsScanned self.new (round.now.own.first + index + 1)) }
        ensures same { OnOk result (self.new
            ≡ record self.old { cells = self.new.cells; steps = self.new.steps }) }
    {
        let key = round.own.first + index;
        let Some(begun) = self.cells.clock_at(key) else {
            return Ok(());
        };
        let location = self.keys.location(index);
        let search = InstructionSearch {
            key,
            location,
            begun,
            found: found(location, begun),
        };
        let leaps: &'a [Option<Vec<Leap>>] = self.leaps;
        match &leaps[index] {
            Some(leaps) => self.take_leaps(round, &search, leaps),
            None => self.take_hops(round, &search, self.keys.node(index).hops),
        }
    }

    /// Takes the keys with the counts of this number, with the first mark's leading.
    pub(super) fn take_round(&mut self, leading: usize) -> Result<(), AllocError>
        requires scanned { IsScanned self.old (leading * length (order_of self.old)) }
        requires below { leading < self.old.keys.now.counts }
        ensures scanned { OnOk result (IsScanned self.new
            ((leading + 1) * length (order_of self.old))) }
        ensures same { OnOk result (self.new
            ≡ record self.old { cells = self.new.cells; steps = self.new.steps }) }
    {
        if !self.cells.keeps_any(leading) {
            return Ok(());
        }
        let round = self.keys.round(leading);
        for index in 0..self.keys.nodes.len() {
            self.take_key(&round, index)?;
        }
        Ok(())
    }
}
