//! Loops that stand in the loop of a mark which they aren't inside of: among what is inside of it.

use crate::loops::Loops;
use crate::passings::Landing;
use crate::table::Table;
use crate::walks::Walks;
use std::alloc::AllocError;

/// A loop as it stands among those of other marks: its table, and its mark's place in the order of
/// the flow.
#[derive(Drop)]
pub struct Standing {
    pub place: usize,
    pub table: Table,
}

/// The parts of the loop of a mark, between which what isn't inside of it may stand.
#[derive(Drop)]
pub struct Parts {
    /// The loops that are inside of it.
    pub inner: Vec<Standing>,
    /// All of its passes, the last at the end.
    pub passed: Table,
    /// Its passes but for what comes before the first.
    pub onward: Table,
}

impl Loops<'_> {
    /// These loops, where those that stand in the loop at this place do so among what is inside of
    /// it.
    pub(super) fn mixed(
        &mut self,
        place: usize,
        inner: &[Standing],
        walks: &mut Walks,
    ) -> Result<Option<Table>, AllocError> {
        let Some(mark) = self.order.get(place).copied() else {
            return Ok(None);
        };
        let Some(parts) = self.parts.get_mut(mark).and_then(|parts| parts.take()) else {
            return Ok(None);
        };
        let within = self.within(mark, &parts, inner, walks)?;
        let mut both = parts.passed.join(self.alloc, &within, walks)?;
        let first = within.join(self.alloc, &parts.onward, walks)?;
        both.raise(&first)?;
        let mut group = Table::one(self.alloc, self.size)?;
        for one in inner {
            if one.place == place {
                self.put(&mut group, &both, walks)?;
            } else if !self.is_in(one.place, mark) {
                self.put(&mut group, &one.table, walks)?;
            }
        }
        Ok(Some(group))
    }

    /// What is inside of a mark, and the loops that stand in its own, in the order of the flow.
    fn within(
        &self,
        mark: usize,
        parts: &Parts,
        beside: &[Standing],
        walks: &mut Walks,
    ) -> Result<Table, AllocError> {
        let mut group = Table::one(self.alloc, self.size)?;
        for place in 0..self.order.len() {
            for one in &parts.inner {
                if one.place == place {
                    self.put(&mut group, &one.table, walks)?;
                }
            }
            for one in beside {
                if one.place == place && self.is_in(place, mark) {
                    self.put(&mut group, &one.table, walks)?;
                }
            }
        }
        Ok(group)
    }

    /// Whether the loop at this place stands in that of a mark, which it isn't inside of.
    fn is_in(&self, place: usize, mark: usize) -> bool {
        let Some(other) = self.order.get(place).copied() else {
            return false;
        };
        if other == mark {
            return false;
        }
        let (Some(inner), Some(outer)) = (self.landings.get(other), self.landings.get(mark)) else {
            return false;
        };
        for landing in inner {
            if self.stands_in(*landing, outer) {
                return true;
            }
        }
        false
    }

    /// Whether the loop of this pass stands in that of these: ways free of marks lead to it from
    /// behind one of them, and from behind it to that one.
    fn stands_in(&self, inner: Landing, outer: &[Landing]) -> bool {
        for landing in outer {
            if self.leads(landing.source, inner.from) && self.leads(inner.source, landing.from) {
                return true;
            }
        }
        false
    }

    /// Whether a way free of marks leads from behind a pass to a site.
    fn leads(&self, source: usize, site: usize) -> bool {
        match self.sources.free.get(source) {
            Some(free) => free.at(site).is_some(),
            None => false,
        }
    }

    /// Whether another loop stands in that of a mark, beside it.
    pub(super) fn has_another(&self, mark: usize) -> bool {
        let around = self.marks.get(mark).and_then(|one| one.inside);
        for place in 0..self.order.len() {
            let other = self
                .order
                .get(place)
                .and_then(|other| self.marks.get(*other));
            if other.is_some_and(|other| other.inside == around) && self.is_in(place, mark) {
                return true;
            }
        }
        false
    }
}
