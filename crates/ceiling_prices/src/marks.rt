//! The marks, and how they stand in one another.

use base_notes::Mark;
use ceiling_rows::SiteEdge;
use std::alloc::{AllocError, Global};

/// A mark among others. Sets of marks are bits: bit j stands for the mark with index j.
#[derive(Clone, Copy)]
pub struct Standing {
    /// The mark itself.
    pub bit: u64,
    /// How often it is passed at most, since the last pass of one that it stands inside of.
    pub most: i128,
    /// The marks that it stands inside of.
    pub outer: u64,
    /// The marks that stand inside of it.
    pub inner: u64,
    /// How often it is passed at most in a whole run.
    pub passes: u128,
}

/// The bit of the mark with this index.
pub fn bit_of(mark: u8) -> u64 {
    let first: u64 = 1;
    first.wrapping_shl(u32::from(mark))
}

/// The marks, in their order.
#[derive(Drop)]
pub struct Marks {
    pub list: Vec<Standing>,
    /// Those that may never be passed.
    shut: u64,
}

impl Marks {
    /// Those of notes.
    pub fn of(alloc: Global, marks: &[Mark]) -> Result<Marks, AllocError> {
        let list = Vec::new(alloc);
        let mut told = Marks { list, shut: 0 };
        for (place, mark) in (0..u8::MAX).zip(marks) {
            told.add(bit_of(place), mark)?;
        }
        told.set_inner(alloc)?;
        Ok(told)
    }

    /// Adds the next mark.
    fn add(&mut self, bit: u64, mark: &Mark) -> Result<(), AllocError> {
        let around = match mark.inside {
            Some(place) => self.list.get(place).copied(),
            None => None,
        };
        let outer = around.map_or(0, |around| around.outer | around.bit);
        let times = around.map_or(1, |around| around.times_inside());
        if mark.most == 0 {
            self.shut |= bit;
        }
        self.list.push(Standing {
            bit,
            most: i128::from(mark.most),
            outer,
            inner: 0,
            passes: times.saturating_mul(u128::from(mark.most)),
        })?;
        Ok(())
    }

    /// Tells each mark which stand inside of it.
    fn set_inner(&mut self, alloc: Global) -> Result<(), AllocError> {
        let inner: Vec<u64> = self
            .list
            .iter()
            .map(|one| self.inside_of(one.bit))
            .collect(alloc)?;
        for (mark, inner) in self.list.iter_mut().zip(&inner) {
            mark.inner = *inner;
        }
        Ok(())
    }

    /// The marks that stand inside of one.
    fn inside_of(&self, bit: u64) -> u64 {
        let mut inner = 0;
        for mark in &self.list {
            if mark.outer & bit != 0 {
                inner |= mark.bit;
            }
        }
        inner
    }

    /// The mark with this index.
    pub fn at(&self, mark: u8) -> Option<Standing> {
        self.list.get(usize::from(mark)).copied()
    }

    /// Whether walks may go along an edge.
    pub fn lets(&self, edge: &SiteEdge) -> bool {
        match edge.mark {
            Some(mark) => self.shut & bit_of(mark) == 0,
            None => true,
        }
    }

    /// Of which marks a round may go along an edge: not of the edge's mark, and not of those that
    /// stand inside of it.
    pub fn going_on(&self, edge: &SiteEdge) -> u64 {
        let Some(mark) = edge.mark else {
            return u64::MAX;
        };
        match self.at(mark) {
            Some(one) => !(one.bit | one.inner),
            None => 0,
        }
    }
}

impl Standing {
    /// How many times a mark that stands right inside of it may begin anew in a whole run.
    fn times_inside(self) -> u128 {
        let most = self.most.unsigned_abs();
        let before = if most == 0 { 1 } else { self.passes / most };
        before.saturating_mul(most.saturating_add(1))
    }
}
