//! Whole prices near others: rounded, raised where a cycle doesn't pay, and lowered where that
//! helps.

use crate::budget::Budget;
use crate::prices::Prices;
use crate::search::{Search, Settled};
use std::alloc::AllocError;

/// How many halves of a price are taken off at most.
const HALVES: u8 = 127;

/// The whole number just below a part of a unit; that just above, where it is rounded up.
fn rounded(parts: i128, unit: i128, is_up: bool) -> i128 {
    let size = parts.max(0).unsigned_abs();
    let by = unit.max(1).unsigned_abs().max(1);
    let whole = if is_up { size.div_ceil(by) } else { size / by };
    i128::try_from(whole).unwrap_or(i128::MAX)
}

/// The one with the lower total.
fn lower(best: Option<Settled>, other: Option<Settled>) -> Option<Settled> {
    match (best, other) {
        (Some(known), Some(new)) if new.total < known.total => Some(new),
        (Some(known), _) => Some(known),
        (None, new) => new,
    }
}

impl Search<'_> {
    /// Whole prices that are near these, and pay for all; none where the steps are used up.
    pub fn whole(
        &mut self,
        near: &Prices,
        known: Option<Settled>,
        budget: &mut Budget,
    ) -> Result<Option<Settled>, AllocError> {
        let below = self.rounded(near, false)?;
        let best = lower(known, self.raised(below, budget)?);
        let above = self.rounded(near, true)?;
        let best = lower(best, self.raised(above, budget)?);
        match best {
            Some(best) => Ok(Some(self.lowered(best, budget)?)),
            None => Ok(None),
        }
    }

    /// Prices, rounded.
    fn rounded(&self, near: &Prices, is_up: bool) -> Result<Prices, AllocError> {
        let mut list = Vec::new(self.alloc);
        for parts in &near.list {
            list.push(rounded(*parts, near.unit, is_up))?;
        }
        Ok(Prices { unit: 1, list })
    }

    /// Takes halves off each price, as long as the total gets lower by it.
    fn lowered(&mut self, settled: Settled, budget: &mut Budget) -> Result<Settled, AllocError> {
        let mut best = settled;
        for index in 0..self.net.ranks.len() {
            best = self.lowered_at(best, index, budget)?;
        }
        Ok(best)
    }

    /// Takes halves off a price.
    fn lowered_at(
        &mut self,
        settled: Settled,
        index: usize,
        budget: &mut Budget,
    ) -> Result<Settled, AllocError> {
        let mut best = settled;
        let mut step = best.prices.list.get(index).copied().unwrap_or(0);
        for _ in 0..HALVES {
            if step <= 0 || budget.is_spent() {
                break;
            }
            let mut list = best.prices.list.clone()?;
            if let Some(price) = list.get_mut(index) {
                *price = price.saturating_sub(step).max(0);
            }
            if let Some(other) = self.raised(Prices { unit: 1, list }, budget)?
                && other.total < best.total
            {
                best = other;
            }
            step /= 2;
        }
        Ok(best)
    }
}
