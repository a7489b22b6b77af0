//! The hops of a walk, as they are listed, and which of its revolutions are shown.

use base_notes::Times;
use flow_walks::Visit;
use picture_scene::{DrawnHop, Extent, PAGE_ROWS, Parts, Rows, Tallies, Walk};
use std::alloc::{AllocError, Global};

/// How many hops are looked at for the rows, from one on: rows have no more word times.
const MOST_VISITS: usize = 1200;

/// Hops that are taken one after the other, from the first of a walk on.
#[derive(Clone, Copy)]
pub struct Hops<'a> {
    pub visits: &'a [Visit],
    /// The drum's angle when the walk begins.
    pub angle: u64,
    pub times: &'a Times,
}

impl Hops<'_> {
    /// One of the hops, as it is drawn.
    fn hop(self, visit: &Visit) -> DrawnHop {
        DrawnHop {
            visit: *visit,
            parts: Parts::of(visit, self.angle, self.times),
            from: 0,
        }
    }

    /// Takes hops from one on into rows, as long as these have room.
    fn take_from(self, rows: &mut Rows, first: usize) -> Result<(), AllocError> {
        let visits = self.visits.get(first..).unwrap_or(&[]);
        for visit in visits.get(..MOST_VISITS).unwrap_or(visits) {
            if !rows.take(self.hop(visit))? {
                break;
            }
        }
        Ok(())
    }

    /// The first hop of the location at which the walk spends most word times, from 0, and the
    /// revolution in which it begins.
    fn heaviest(self, tallies: &Tallies) -> Option<(usize, u128)> {
        let most = tallies.most_time();
        let (place, visit) = self
            .visits
            .iter()
            .enumerate()
            .find(|one| tallies.at(one.1.place.number()).time == most)?;
        Some((place, self.hop(visit).first_revolution()))
    }

    /// The rows: those of the first hops; or, where the walk comes to the location at which it
    /// spends most later than these, those from there on.
    pub fn rows(
        self,
        alloc: Global,
        walk: Walk,
        tallies: &Tallies,
    ) -> Result<(Rows, Extent), AllocError> {
        let mut rows = Rows::new(alloc, PAGE_ROWS);
        self.take_from(&mut rows, 0)?;
        if let Some((place, revolution)) = self.heaviest(tallies) {
            if revolution > rows.last() {
                let mut rows = Rows::new(alloc, PAGE_ROWS);
                rows.jump();
                self.take_from(&mut rows, place)?;
                let extent = Extent::From(revolution.saturating_add(1), rows.shown.len());
                return Ok((rows, extent));
            }
        }
        let extent = Extent::until(walk, rows.last());
        Ok((rows, extent))
    }

    /// Counts the hops.
    pub fn count(self, tallies: &mut Tallies) {
        for visit in self.visits {
            tallies.count(visit, 1);
        }
    }
}
