//! A walk that is strung together from a plan, hop by hop with true counts.

use crate::choosing::Choice;
use crate::marks::Standing;
use crate::owed::Owed;
use crate::rounds::Visit;
use crate::stock::Stock;
use crate::trail::Trail;
use crate::ways_back::{Ground, WaysBack};
use ceiling_optimum::Budget;
use ceiling_pieces::Step;
use ceiling_rows::{SiteEdge, SiteRow};
use std::alloc::{AllocError, Global};

/// How many steps a walk has at most, rounds counted once.
const STEPS: u32 = 12_000;

/// The walk so far.
#[derive(Drop)]
pub struct Walking<'a> {
    pub alloc: Global,
    pub ground: Ground<'a>,
    pub owed: Owed<'a>,
    /// Whether it rather goes into a loop than past it.
    pub goes_in: bool,
    /// Where it is.
    pub site: usize,
    /// How often each mark was passed.
    pub counts: Vec<u32>,
    pub clock: u128,
    pub steps: u32,
    /// By mark, the step by which it was set back last.
    pub set_back: Vec<u32>,
    /// By loop, the step by which its visit began.
    pub begun: Vec<u32>,
    pub visits: Vec<Visit>,
    pub stock: Stock,
    pub trail: Trail<'a>,
    pub back: WaysBack,
    pub budget: Budget,
}

impl<'a> Walking<'a> {
    /// From a site, at which no mark was passed yet.
    pub fn new(
        alloc: Global,
        ground: Ground<'a>,
        owed: Owed<'a>,
        goes_in: bool,
        stock: Stock,
        trail: Trail<'a>,
        site: usize,
        budget: Budget,
    ) -> Result<Walking<'a>, AllocError> {
        let marks = ground.marks.list.len();
        let mut walking = Walking {
            alloc,
            ground,
            owed,
            goes_in,
            site,
            counts: vec![in alloc; 0; marks]?,
            clock: 0,
            steps: 0,
            set_back: vec![in alloc; 0; marks]?,
            begun: vec![in alloc; 0; ground.loops.list.len()]?,
            visits: Vec::new(alloc),
            stock,
            trail,
            back: WaysBack::none(alloc, ground.rows.len())?,
            budget,
        };
        for number in ground.loops.around(ground.places.at(site)) {
            walking.begin(*number)?;
        }
        Ok(walking)
    }

    /// Goes on as far as it can.
    pub fn go(&mut self) -> Result<(), AllocError> {
        for _ in 0..STEPS {
            if self.budget.is_spent() || !self.step()? {
                break;
            }
        }
        Ok(())
    }

    /// Goes on by a step; `false` where there is none.
    fn step(&mut self) -> Result<bool, AllocError> {
        self.steps = self.steps.saturating_add(1);
        let Some(row) = self.ground.rows.get(self.site) else {
            return Ok(false);
        };
        self.end_in(row);
        let choices = self.choices(row)?;
        let Some(choice) = self.best_of(&choices)? else {
            return Ok(false);
        };
        let Some(edge) = row.edges.get(choice.edge) else {
            return Ok(false);
        };
        self.take(choice, edge)
    }

    /// Takes the ends of a row's hops.
    fn end_in(&mut self, row: &SiteRow) {
        if row.stop > 0 {
            let time = self.clock.saturating_add(u128::from(row.stop));
            let last = Step {
                from: self.site,
                edge: None,
            };
            self.trail.end_by(time, last);
        }
        for (index, edge) in row.edges.iter().enumerate() {
            if edge.mark.is_some() && self.lets(edge) {
                let time = self.clock.saturating_add(u128::from(edge.stop));
                let last = Step {
                    from: self.site,
                    edge: Some(index),
                };
                self.trail.end_by(time, last);
            }
        }
    }

    /// Whether the counts allow an edge.
    pub fn lets(&self, edge: &SiteEdge) -> bool {
        let Some(mark) = edge.mark else {
            return true;
        };
        let count = self.counts.get(usize::from(mark)).copied();
        let most = self.ground.marks.at(mark).map_or(0, |one| one.most);
        count.is_some_and(|count| count < most)
    }

    /// Takes an edge. Whether there is room for it.
    fn take(&mut self, choice: Choice, edge: &SiteEdge) -> Result<bool, AllocError> {
        let kind = choice.kind;
        let step = Step {
            from: self.site,
            edge: Some(choice.edge),
        };
        let planned = if self.stock.has(kind) {
            Some(kind)
        } else {
            None
        };
        if !self.trail.add(step, planned)? {
            return Ok(false);
        }
        if planned.is_some() {
            self.stock.take(kind, 1, true);
        }
        self.pass(edge.mark);
        self.clock = self.clock.saturating_add(u128::from(edge.time));
        self.site = edge.onto;
        let opened = match edge.mark {
            Some(mark) => self.ground.loops.opened_at(kind, mark),
            None => None,
        };
        if let Some(number) = opened {
            self.go_round(number, edge)?;
        }
        self.begin_visits(kind, opened)?;
        if let Some(number) = opened {
            self.visit(number)?;
        }
        Ok(true)
    }

    /// Passes a mark.
    fn pass(&mut self, mark: Option<u8>) {
        let Some(mark) = mark else {
            return;
        };
        let Some(standing) = self.ground.marks.at(mark) else {
            return;
        };
        if let Some(count) = self.counts.get_mut(usize::from(mark)) {
            *count = count.saturating_add(1);
        }
        set_back(&mut self.counts, &self.ground.marks.list, standing.inner, 0);
        let steps = self.steps;
        set_back(
            &mut self.set_back,
            &self.ground.marks.list,
            standing.inner,
            steps,
        );
    }

    /// Begins the visits of loops that an edge of this kind led into, or those inside of the loop
    /// whose round it ended.
    fn begin_visits(&mut self, kind: usize, opened: Option<usize>) -> Result<(), AllocError> {
        let loops = self.ground.loops;
        let stayed = loops.chain(kind);
        let around = loops.around(self.ground.places.at(self.site));
        let mut is_behind = false;
        for number in around {
            if is_behind || !stayed.contains(number) {
                self.begin(*number)?;
            }
            is_behind |= opened == Some(*number);
        }
        Ok(())
    }

    /// Begins the visit of a loop.
    fn begin(&mut self, number: usize) -> Result<(), AllocError> {
        let place = self.ground.places.at(self.site);
        self.stock
            .begin(self.ground.loops, number, place, self.steps)?;
        if let Some(begun) = self.begun.get_mut(number) {
            *begun = self.steps;
        }
        Ok(())
    }
}

/// Sets the numbers of some marks to one.
fn set_back(numbers: &mut [u32], marks: &[Standing], some: u64, to: u32) {
    for (number, standing) in numbers.iter_mut().zip(marks) {
        if standing.bit & some != 0 {
            *number = to;
        }
    }
}
