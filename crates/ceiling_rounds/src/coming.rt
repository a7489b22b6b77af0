//! What hops come to: one alone, one stretch behind another, and rounds of one.

ghost use Rattle.std.specs.Prelude.{◌≡◌, ◌<◌, ◌++◌, [], ◌∷◌, List, IfOk, IfSome};
ghost use Rattle.machine_steps.specs.WaysLeft.{seen_way};
ghost use Rattle.flow_graph.specs.SettingOf.{setting};
ghost use Rattle.flow_graph.specs.Walk as walks;
ghost use Rattle.flow_walks.specs.Pieces.{repeated, seen_placed, PlacedHop};
ghost use Rattle.ceiling_rows.specs.Marked.{mark_by};
ghost use Rattle.ceiling_rounds.specs.Stretch.{next_by, number_of, span_of, ComeTo};

use crate::changes::{changes_by, followed, over_rounds};
use crate::openings;
use crate::setting::Setting;
use crate::stretch::Stretch;
use base_notes::{Mark, Notes};
use base_words::Location;
use flow_graph::longest::longest;
use flow_walks::Placed;
use machine_steps::Way;
use std::alloc::{AllocError, Global};

/// Where a hop by this way goes on.
fn next_by(way: Way) -> Option<Location>
    ensures { number_of result ≡ next_by (seen_way way) }
{
    match way {
        Way::To(next) => Some(next),
        Way::Early | Way::Late => None,
    }
}

/// The index of the mark that a hop of a location passes by this way.
pub fn mark_by(marks: &[Mark], from: Location, way: Way) -> Option<usize>
    ensures { result ≡ mark_by marks.now from.number (seen_way way) }
{
    match way {
        Way::To(next) => Mark::on_edge(marks, from, next),
        Way::Early | Way::Late => None,
    }
}

impl Stretch {
    /// No hop, of a location at an angle.
    pub fn none(
        alloc: Global,
        notes: &Notes,
        from: Location,
        angle: u64,
    ) -> Result<Stretch, AllocError>
        ensures { IfOk result (λ made. (g : walks.Setting) → g.notes ≡ notes.now
            → ComeTo g [] (span_of made)) }
    {
        Ok(Stretch {
            from,
            angle,
            onto: Some(from),
            time: 0,
            changes: changes_by(alloc, notes.marks(), None)?,
            openings: openings::none_changed(alloc, notes.calls())?,
        })
    }

    /// A hop; `None` where it is none of its location.
    pub fn of_hop(
        alloc: Global,
        by: &Setting<'_>,
        one: Placed,
    ) -> Result<Option<Stretch>, AllocError>
        ensures { IfOk result (λ made. IfSome made (λ stretch. ComeTo
            (setting by.now.deck.now by.now.times.now by.now.notes.now)
            (seen_placed one ∷ []) (span_of stretch))) }
    {
        if !by.has_hop(one.location, one.hop) {
            return Ok(None);
        }
        let marks = by.notes.marks();
        let end = longest(by.times, one.location, one.hop, one.angle);
        let passed = mark_by(marks, one.location, one.hop.way);
        Ok(Some(Stretch {
            from: one.location,
            angle: one.angle,
            onto: next_by(one.hop.way),
            time: u128::from(end - one.angle),
            changes: changes_by(alloc, marks, passed)?,
            openings: openings::of_hop(alloc, by.notes.calls(), one.location, one.hop.way)?,
        }))
    }

    /// This stretch and then another; `None` where that doesn't begin where and when this one ends,
    /// or asks what this one doesn't leave open, or there is no room for so much.
    pub fn then(&self, alloc: Global, next: &Stretch) -> Result<Option<Stretch>, AllocError>
        ensures { IfOk result (λ made. IfSome made (λ both. (g : walks.Setting)
            (hops others : List PlacedHop) → ComeTo g hops (span_of self.now)
            → ComeTo g others (span_of next.now) → ComeTo g (hops ++ others) (span_of both))) }
    {
        if self.changes.len() != next.changes.len() || self.openings.len() != next.openings.len() {
            return Ok(None);
        }
        if !self.leads_to(next) {
            return Ok(None);
        }
        let Some(time) = self.time.checked_add(next.time) else {
            return Ok(None);
        };
        let Some(changes) = followed(alloc, &self.changes, &next.changes)? else {
            return Ok(None);
        };
        let Some(openings) = openings::followed(alloc, &self.openings, &next.openings)? else {
            return Ok(None);
        };
        Ok(Some(Stretch {
            from: self.from,
            angle: self.angle,
            onto: next.onto,
            time,
            changes,
            openings,
        }))
    }

    /// So many rounds of this stretch; `None` where it doesn't end where and as it begins, or a
    /// second round would ask what the first doesn't leave open, or there is no room for so much.
    pub fn rounds(&self, alloc: Global, times: u16) -> Result<Option<Stretch>, AllocError>
        requires { 0 < times }
        ensures { IfOk result (λ made. IfSome made (λ all. (g : walks.Setting)
            (hops : List PlacedHop) → ComeTo g hops (span_of self.now)
            → ComeTo g (repeated times hops) (span_of all))) }
    {
        if !self.leads_to(self) {
            return Ok(None);
        }
        let Some(time) = u128::from(times).checked_mul(self.time) else {
            return Ok(None);
        };
        let Some(changes) = over_rounds(alloc, &self.changes, times)? else {
            return Ok(None);
        };
        let Some(openings) = openings::followed(alloc, &self.openings, &self.openings)? else {
            return Ok(None);
        };
        Ok(Some(Stretch {
            from: self.from,
            angle: self.angle,
            onto: self.onto,
            time,
            changes,
            openings,
        }))
    }
}
