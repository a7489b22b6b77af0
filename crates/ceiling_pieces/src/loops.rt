//! Loops: the longest walks by passes of a mark and of those inside of it, the inner marks first.

use crate::free::{Last, Step};
use crate::mixed::{Parts, Standing};
use crate::passings::{Landing, Passing, Passings};
use crate::sources::Sources;
use crate::table::{Cell, Table, longer};
use crate::walks::{Walk, Walks};
use base_notes::Mark;
use std::alloc::{AllocError, Global};

/// The loops of the marks, as long as the mark around hasn't taken them.
#[derive(Drop)]
pub struct Loops<'a> {
    pub(super) alloc: Global,
    pub(super) marks: &'a [Mark],
    pub(super) passings: &'a Passings,
    pub(super) sources: &'a Sources,
    /// The marks in the order of the flow.
    pub(super) order: Vec<usize>,
    /// How many sources there are, and with them the end.
    pub(super) size: usize,
    loops: Vec<Option<Table>>,
    /// Of each mark its edges that lead to sources.
    pub(super) landings: Vec<Vec<Landing>>,
    /// Of each mark in whose loop another one stands that isn't inside of it: its parts.
    pub(super) parts: Vec<Option<Parts>>,
}

impl<'a> Loops<'a> {
    /// None yet.
    pub fn new(
        alloc: Global,
        marks: &'a [Mark],
        passings: &'a Passings,
        sources: &'a Sources,
    ) -> Result<Loops<'a>, AllocError> {
        let mut loops = Vec::new(alloc);
        let mut landings = Vec::new(alloc);
        let mut parts = Vec::new(alloc);
        for mark in 0..marks.len() {
            loops.push(None)?;
            landings.push(passings.landings(alloc, mark, sources)?)?;
            parts.push(None)?;
        }
        Ok(Loops {
            alloc,
            marks,
            passings,
            sources,
            order: passings.order(alloc, marks.len())?,
            size: sources.free.len().saturating_add(1),
            loops,
            landings,
            parts,
        })
    }

    /// The column of the end.
    fn end(&self) -> usize {
        self.sources.free.len()
    }

    /// The longest walk from the start to an end.
    pub fn longest(mut self, walks: &mut Walks) -> Result<Option<usize>, AllocError> {
        let whole = self.whole(walks)?;
        let mut longest = whole.at(0, self.end());
        for (index, free) in self.sources.free.iter().enumerate() {
            if let (Some(way), Some(last)) = (whole.at(0, index), free.last) {
                longest = longer(longest, ended(index, way, last, walks)?);
            }
        }
        Ok(longest.map(|cell| cell.walk))
    }

    /// The longest walks by passes of all marks.
    fn whole(&mut self, walks: &mut Walks) -> Result<Table, AllocError> {
        for mark in (0..self.marks.len()).rev() {
            let around = self.around(mark, walks)?;
            if let Some(entry) = self.loops.get_mut(mark) {
                *entry = Some(around);
            }
        }
        self.group(None, walks)
    }

    /// Of the marks that stand right inside of one, or inside of none, each loop at most once. It
    /// isn't known which comes before which: so each is put behind those so far and before them, in
    /// the order of the flow and against it.
    fn group(&mut self, around: Option<usize>, walks: &mut Walks) -> Result<Table, AllocError> {
        let inner = self.all_taken(around)?;
        self.inside(&inner, walks)
    }

    /// The same of these loops.
    fn grouped(&self, inner: &[Standing], walks: &mut Walks) -> Result<Table, AllocError> {
        let mut group = Table::one(self.alloc, self.size)?;
        for one in inner {
            self.put(&mut group, &one.table, walks)?;
        }
        if inner.len() < 2 {
            return Ok(group);
        }
        let backward = self.backward(inner, walks)?;
        group.raise(&backward)?;
        Ok(group)
    }

    /// The same against the order of the flow.
    fn backward(&self, inner: &[Standing], walks: &mut Walks) -> Result<Table, AllocError> {
        let mut group = Table::one(self.alloc, self.size)?;
        for one in inner.iter().rev() {
            self.put(&mut group, &one.table, walks)?;
        }
        Ok(group)
    }

    /// Puts a loop behind walks and before them, as long as there is room.
    pub(super) fn put(
        &self,
        group: &mut Table,
        one: &Table,
        walks: &mut Walks,
    ) -> Result<(), AllocError> {
        if walks.is_full() {
            return Ok(());
        }
        let behind = group.join(self.alloc, one, walks)?;
        let before = one.join(self.alloc, group, walks)?;
        group.raise(&behind)?;
        group.raise(&before)
    }

    /// The loops of the marks that stand right inside of one, or inside of none, in the order of
    /// the flow.
    fn all_taken(&mut self, around: Option<usize>) -> Result<Vec<Standing>, AllocError> {
        let mut inner = Vec::new(self.alloc);
        for place in 0..self.order.len() {
            if let Some(table) = self.taken(place, around) {
                inner.push(Standing { place, table })?;
            }
        }
        Ok(inner)
    }

    /// The loop of the mark at this place of the order, if it stands right inside of this one.
    fn taken(&mut self, index: usize, around: Option<usize>) -> Option<Table> {
        let mark = *self.order.get(index)?;
        if self.marks.get(mark)?.inside != around {
            return None;
        }
        self.loops.get_mut(mark)?.take()
    }

    /// What is inside of a mark, each loop at most once.
    fn inside(&mut self, inner: &[Standing], walks: &mut Walks) -> Result<Table, AllocError> {
        let mut group = self.grouped(inner, walks)?;
        for one in inner {
            if let Some(mixed) = self.mixed(one.place, inner, walks)? {
                group.raise(&mixed)?;
            }
        }
        Ok(group)
    }

    /// The loop of a mark.
    fn around(&mut self, mark: usize, walks: &mut Walks) -> Result<Table, AllocError> {
        let inner = self.all_taken(Some(mark))?;
        let inside = self.inside(&inner, walks)?;
        if self.most(mark) == 0 || walks.is_full() {
            return Ok(inside);
        }
        let passes = self.passes(mark, walks)?;
        let body = inside.join(self.alloc, &passes, walks)?;
        self.keep_parts(mark, inner, &inside, &passes, &body, walks)?;
        self.in_rounds(self.most(mark), inside, &body, walks)
    }

    /// How often a mark is passed at most.
    fn most(&self, mark: usize) -> u16 {
        self.marks.get(mark).map_or(0, |mark| mark.most)
    }

    /// Keeps the parts of a mark's loop, where another one stands in it that isn't inside of it.
    fn keep_parts(
        &mut self,
        mark: usize,
        inner: Vec<Standing>,
        inside: &Table,
        passes: &Table,
        body: &Table,
        walks: &mut Walks,
    ) -> Result<(), AllocError> {
        if !self.has_another(mark) {
            return Ok(());
        }
        let rounds = self.rounds(body, self.most(mark).saturating_sub(1), walks)?;
        let passed = body.join(self.alloc, &rounds, walks)?;
        let behind = rounds.join(self.alloc, inside, walks)?;
        let onward = passes.join(self.alloc, &behind, walks)?;
        if let Some(entry) = self.parts.get_mut(mark) {
            *entry = Some(Parts {
                inner,
                passed,
                onward,
            });
        }
        Ok(())
    }

    /// The loop of a mark, by what is inside of it, and by that with a pass behind it.
    fn in_rounds(
        &self,
        most: u16,
        inside: Table,
        body: &Table,
        walks: &mut Walks,
    ) -> Result<Table, AllocError> {
        let rounds = self.rounds(body, most.saturating_sub(1), walks)?;
        let passed = body.join(self.alloc, &rounds, walks)?;
        let onward = passed.join(self.alloc, &inside, walks)?;
        let mut whole = inside;
        whole.raise(&onward)?;
        if most > 1 && body.leads_back() {
            let last = self.last(most, body, walks)?;
            whole.raise(&last)?;
        }
        Ok(whole)
    }

    /// The walks whose last hop is the last of so many passes.
    fn last(&self, most: u16, body: &Table, walks: &mut Walks) -> Result<Table, AllocError> {
        let rounds = self.rounds(body, most.saturating_sub(2), walks)?;
        let before = body.join(self.alloc, &rounds, walks)?;
        let ending = self.ending(body)?;
        before.join(self.alloc, &ending, walks)
    }

    /// So many rounds of walks that lead from a source back to it, where there is one.
    fn rounds(&self, body: &Table, times: u16, walks: &mut Walks) -> Result<Table, AllocError> {
        let mut rounds = Table::one(self.alloc, self.size)?;
        if times == 0 {
            return Ok(rounds);
        }
        for index in 0..self.end() {
            if let Some(one) = body.at(index, index)
                && let Some(walk) = walks.rounds(times, one.walk)?
            {
                let time = one.time.saturating_mul(u128::from(times));
                let onto = index;
                rounds.raise_at(index, Cell { onto, time, walk })?;
            }
        }
        Ok(rounds)
    }

    /// Of walks those to the end.
    fn ending(&self, body: &Table) -> Result<Table, AllocError> {
        let mut ending = Table::none(self.alloc, self.size)?;
        for index in 0..self.end() {
            if let Some(cell) = body.at(index, self.end()) {
                ending.raise_at(index, cell)?;
            }
        }
        Ok(ending)
    }

    /// The longest ways free of marks with one pass of a mark behind them.
    fn passes(&self, mark: usize, walks: &mut Walks) -> Result<Table, AllocError> {
        let mut passes = Table::none(self.alloc, self.size)?;
        for passing in &self.passings.list {
            if passing.mark == mark {
                self.add_passes(&mut passes, *passing, walks)?;
            }
        }
        Ok(passes)
    }

    /// Adds the ways to an edge with a mark, with that edge behind them.
    fn add_passes(
        &self,
        passes: &mut Table,
        passing: Passing,
        walks: &mut Walks,
    ) -> Result<(), AllocError> {
        for (index, free) in self.sources.free.iter().enumerate() {
            if let Some(way) = free.at(passing.from) {
                let step = Step {
                    from: passing.from,
                    edge: Some(passing.edge),
                };
                if let Some(walk) = walks.add(Walk::Way(index, step))? {
                    self.add_pass(passes, passing, index, u128::from(way.time), walk)?;
                }
            }
        }
        Ok(())
    }

    /// Adds a walk from a source to an edge with a mark, where its last hop begins at this time,
    /// and goes on behind it or ends.
    fn add_pass(
        &self,
        passes: &mut Table,
        passing: Passing,
        from: usize,
        begun: u128,
        walk: usize,
    ) -> Result<(), AllocError> {
        if let Some(onto) = self.sources.index_of(passing.onto) {
            let time = begun.saturating_add(u128::from(passing.time));
            passes.raise_at(from, Cell { onto, time, walk })?;
        }
        let onto = self.end();
        let time = begun.saturating_add(u128::from(passing.stop));
        passes.raise_at(from, Cell { onto, time, walk })
    }
}

/// A walk to a source with the longest way from there to an end; `None` where there is no room for
/// it.
fn ended(
    index: usize,
    before: Cell,
    last: Last,
    walks: &mut Walks,
) -> Result<Option<Cell>, AllocError> {
    let step = Step {
        from: last.from,
        edge: None,
    };
    let Some(way) = walks.add(Walk::Way(index, step))? else {
        return Ok(None);
    };
    let Some(walk) = walks.then(before.walk, way)? else {
        return Ok(None);
    };
    Ok(Some(Cell {
        onto: before.onto,
        time: before.time.saturating_add(u128::from(last.time)),
        walk,
    }))
}
