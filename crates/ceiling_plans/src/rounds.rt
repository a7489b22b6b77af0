//! Rounds: where a loop's round ends at the site at which the one before ended, as many more as
//! nothing hinders, so that one is left of each count and of each kind, but of the pass itself.

use crate::trail::Taken;
use crate::walking::Walking;
use ceiling_rows::SiteEdge;
use std::alloc::AllocError;

/// What it was where a round of a loop ended.
#[derive(Drop)]
pub struct Visit {
    site: usize,
    /// The number of the loop.
    number: usize,
    /// How many pieces there were.
    pieces: usize,
    counts: Vec<u32>,
    step: u32,
    clock: u128,
    angle: u64,
    /// The step by which the loop's visit began.
    begun: u32,
}

/// The rounds that are taken at once.
#[derive(Drop)]
struct More {
    /// How many.
    rounds: u16,
    /// By mark, by how much its count rises each time.
    rises: Vec<u32>,
    taken: Vec<Taken>,
    /// How many pieces stand before them.
    pieces: usize,
    /// What one takes.
    time: u128,
}

impl Walking<'_> {
    /// The place of what it was where a round of this loop ended here before.
    fn place_of(&self, number: usize) -> Option<usize> {
        self.visits
            .iter()
            .position(|one| one.site == self.site && one.number == number)
    }

    /// The step by which a loop's visit began.
    fn begun_of(&self, number: usize) -> u32 {
        self.begun.get(number).copied().unwrap_or(0)
    }

    /// Remembers that a round of a loop ended here.
    pub fn visit(&mut self, number: usize) -> Result<(), AllocError> {
        let visit = Visit {
            site: self.site,
            number,
            pieces: self.trail.len(),
            counts: self.counts.clone()?,
            step: self.steps,
            clock: self.clock,
            angle: self.trail.angle,
            begun: self.begun_of(number),
        };
        let place = self.place_of(number);
        if let Some(place) = place
            && let Some(known) = self.visits.get_mut(place)
        {
            *known = visit;
            return Ok(());
        }
        self.visits.push(visit)?;
        Ok(())
    }

    /// Takes more rounds of a loop, the last of which ended by this edge, if there may be some.
    pub fn go_round(&mut self, number: usize, edge: &SiteEdge) -> Result<(), AllocError> {
        let Some(more) = self.more_rounds(number, edge.mark)? else {
            return Ok(());
        };
        let times = more.rounds.saturating_add(1);
        if !self.trail.close(more.pieces, times, &more.taken)? {
            return Ok(());
        }
        let rounds = i128::from(more.rounds);
        self.stock
            .go_round(self.ground.loops, number, &more.taken, rounds);
        for (count, rise) in self.counts.iter_mut().zip(&more.rises) {
            let all = rise.saturating_mul(u32::from(more.rounds));
            *count = count.saturating_add(all);
        }
        let time = more.time.saturating_mul(u128::from(more.rounds));
        self.clock = self.clock.saturating_add(time);
        let before = self.clock.saturating_sub(u128::from(edge.time));
        self.trail
            .end_here(before.saturating_add(u128::from(edge.stop)));
        self.visits.retain(|visit| visit.pieces <= more.pieces);
        Ok(())
    }

    /// The rounds that may be taken at once behind the one that has ended; none, where there are
    /// none.
    fn more_rounds(&mut self, number: usize, mark: Option<u8>) -> Result<Option<More>, AllocError> {
        let Some(place) = self.place_of(number) else {
            return Ok(None);
        };
        let Some(visit) = self.visits.get(place) else {
            return Ok(None);
        };
        if visit.begun != self.begun_of(number) || visit.angle != self.trail.angle {
            return Ok(None);
        }
        let (pieces, begun, since) = (visit.pieces, visit.clock, visit.step);
        let Some(rises) = self.rises_since(visit)? else {
            return Ok(None);
        };
        let taken = self.trail.taken_since(pieces)?;
        let least = self.rounds_by_counts(&rises, mark);
        let least = least.min(self.rounds_by_plan(number, &taken, mark));
        let loops = self.ground.loops;
        let rounds = least.min(self.stock.even_rounds(loops, number, since, &taken));
        let rounds = u16::try_from(rounds.min(60_000)).unwrap_or(0);
        if rounds == 0 {
            return Ok(None);
        }
        let time = self.clock.saturating_sub(begun);
        Ok(Some(More {
            rounds,
            rises,
            taken,
            pieces,
            time,
        }))
    }

    /// By how much each count has risen since; none, where one has fallen, or was set back and
    /// isn't what it was.
    fn rises_since(&self, visit: &Visit) -> Result<Option<Vec<u32>>, AllocError> {
        let mut rises = Vec::new(self.alloc);
        for ((count, before), step) in self.counts.iter().zip(&visit.counts).zip(&self.set_back) {
            if count < before || count > before && *step > visit.step {
                return Ok(None);
            }
            rises.push(count.saturating_sub(*before))?;
        }
        Ok(Some(rises))
    }

    /// How many more rounds the counts allow, in which they rise by so much.
    fn rounds_by_counts(&self, rises: &[u32], mark: Option<u8>) -> u128 {
        let mut least = u128::MAX;
        let marks = self.ground.marks.list.iter();
        for (index, ((standing, count), rise)) in (0..u8::MAX).zip(
            marks.zip(&self.counts).zip(rises),
        ) {
            if *rise > 0 {
                let kept = u32::from(mark != Some(index));
                let left = standing.most.saturating_sub(*count).saturating_sub(kept);
                least = least.min(u128::from(left / (*rise).max(1)));
            }
        }
        least
    }

    /// How many more rounds the plan allows, which take as much each time.
    fn rounds_by_plan(&self, number: usize, taken: &[Taken], mark: Option<u8>) -> u128 {
        let mut least = u128::MAX;
        for one in taken {
            let is_last = match self.ground.places.kind(one.kind) {
                Some(kind) => kind.mark == mark,
                None => false,
            };
            let rounds = self.stock.rounds(self.ground.loops, number, *one, is_last);
            least = least.min(rounds);
        }
        least
    }
}
