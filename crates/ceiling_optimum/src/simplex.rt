//! The simplex method over the columns that there are: which of them are taken, and what they make
//! each row worth.

use crate::basis::{Basis, Member};
use crate::budget::Budget;
use crate::columns::{Column, Columns};
use crate::exact::Solved;
use std::alloc::{AllocError, Global};

/// How many members are changed at most, for each column and beside.
const CHANGES: usize = 8;

/// How many steps a change takes for each entry of the basis.
const STEPS: usize = 30;

/// The columns with a basis of them.
#[derive(Drop)]
pub struct Simplex {
    pub columns: Columns,
    pub basis: Basis,
}

/// A member that may enter, with what a unit of it brings, in parts of the worths' unit.
#[derive(Clone, Copy)]
struct Gain {
    member: Member,
    parts: i128,
}

impl Simplex {
    /// Without columns, over so many rows.
    pub fn new(alloc: Global, rows: usize) -> Result<Simplex, AllocError> {
        Ok(Simplex {
            columns: Columns::none(alloc),
            basis: Basis::of_slacks(alloc, rows)?,
        })
    }

    /// Changes the basis until no column brings more. What the rows are worth then; `None` where
    /// that can't be told, or the steps are used up.
    pub fn improve(&mut self, budget: &mut Budget) -> Result<Option<Solved>, AllocError> {
        let rows = self.basis.members.len();
        let changes = self.columns.list.len().saturating_add(rows);
        for _ in 0..changes.saturating_mul(CHANGES) {
            let Some(worths) = self.basis.worths(&self.columns)? else {
                return Ok(None);
            };
            let Some(gain) = self.best(&worths) else {
                return Ok(Some(worths));
            };
            if !budget.spend(self.steps() as u64)
                || !self.basis.enter(&self.columns, gain.member)?
            {
                return Ok(None);
            }
        }
        Ok(None)
    }

    /// How many steps a change of the basis takes.
    fn steps(&self) -> usize {
        let rows = self.basis.members.len();
        let basis = rows.saturating_mul(STEPS);
        let entries = self.columns.list.len().saturating_add(basis);
        entries.saturating_mul(rows)
    }

    /// The member that brings most at these worths; `None` where none brings anything.
    fn best(&self, worths: &Solved) -> Option<Gain> {
        let mut best: Option<Gain> = None;
        for (row, worth) in worths.list.iter().enumerate() {
            let gain = Gain {
                member: Member::Slack(row),
                parts: worth.saturating_neg(),
            };
            best = greater(best, gain);
        }
        for (number, column) in self.columns.list.iter().enumerate() {
            let gain = Gain {
                member: Member::Column(number),
                parts: column.gain(worths),
            };
            best = greater(best, gain);
        }
        best
    }
}

/// The greater of two gains; what brings nothing is none.
fn greater(best: Option<Gain>, gain: Gain) -> Option<Gain> {
    let known = best.map_or(0, |best| best.parts);
    if gain.parts > known { Some(gain) } else { best }
}

impl Column {
    /// What a unit of it brings at these worths, in parts of their unit.
    fn gain(&self, worths: &Solved) -> i128 {
        let mut gain = self.time.saturating_mul(worths.unit);
        for (entry, worth) in self.entries.iter().zip(&worths.list) {
            gain = gain.saturating_sub(entry.saturating_mul(*worth));
        }
        gain
    }
}
