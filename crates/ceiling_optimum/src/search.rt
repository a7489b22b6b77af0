//! The search for the least prices: ways are found as they are needed, by the longest ways at the
//! prices of the moment, and the simplex method brings the next prices.

use crate::budget::Budget;
use crate::exact::Solved;
use crate::longest::{Longest, Looked};
use crate::net::Net;
use crate::prices::Prices;
use crate::simplex::Simplex;
use std::alloc::{AllocError, Global};

/// How often prices are raised, or the next ones looked at, at most.
const LOOKS: u32 = 10_000;

/// Prices that pay for all, with what is owed at the start in all.
#[derive(Drop)]
pub struct Settled {
    pub prices: Prices,
    /// In parts of the prices' unit.
    pub total: i128,
}

/// The longest ways, and the columns so far.
#[derive(Drop)]
pub struct Search<'a> {
    pub alloc: Global,
    pub net: &'a Net,
    pub longest: Longest<'a>,
    pub simplex: Simplex,
}

impl<'a> Search<'a> {
    /// Over a net.
    pub fn new(alloc: Global, net: &'a Net) -> Result<Search<'a>, AllocError> {
        Ok(Search {
            alloc,
            net,
            longest: Longest::none(alloc, net)?,
            simplex: Simplex::new(alloc, net.ranks.len().saturating_add(1))?,
        })
    }

    /// Raises prices by the first rule until they pay for all; the cycles that it meets are columns
    /// then. `None` where the steps are used up.
    pub fn raised(
        &mut self,
        prices: Prices,
        budget: &mut Budget,
    ) -> Result<Option<Settled>, AllocError> {
        let mut prices = prices;
        for _ in 0..LOOKS {
            match self.longest.look(&prices, budget)? {
                Looked::Settled => return Ok(self.settled(prices)),
                Looked::Cycles(cycles) => {
                    if !self.charge_all(&mut prices, cycles)? {
                        return Ok(None);
                    }
                }
                Looked::Spent => return Ok(None),
            }
        }
        Ok(None)
    }

    /// The prices at which the longest ways were found.
    fn settled(&self, prices: Prices) -> Option<Settled> {
        let total = self.longest.total(&prices)?;
        Some(Settled { prices, total })
    }

    /// Raises prices until each of these cycles pays. Whether one is raised.
    fn charge_all(
        &mut self,
        prices: &mut Prices,
        cycles: Vec<Vec<usize>>,
    ) -> Result<bool, AllocError> {
        let mut is_raised = false;
        for cycle in cycles {
            is_raised |= prices.charge(self.alloc, self.net, &cycle)?;
            self.simplex.columns.add_cycle(self.net, cycle)?;
        }
        Ok(is_raised)
    }

    /// The least prices in parts of a unit, by the columns that there are and those that are still
    /// needed; `None` where they weren't found.
    pub fn least(&mut self, budget: &mut Budget) -> Result<Option<Settled>, AllocError> {
        for _ in 0..LOOKS {
            let Some(worths) = self.simplex.improve(budget)? else {
                return Ok(None);
            };
            let paths = worths.list.first().copied().unwrap_or(0);
            let prices = self.prices_of(&worths)?;
            match self.longest.look(&prices, budget)? {
                Looked::Settled => {
                    let settled = self.settled(prices);
                    if settled.as_ref().is_none_or(|one| one.total <= paths) {
                        return Ok(settled);
                    }
                    if !self.add_path()? {
                        return Ok(None);
                    }
                }
                Looked::Cycles(cycles) => {
                    if !self.add_cycles(cycles)? {
                        return Ok(None);
                    }
                }
                Looked::Spent => return Ok(None),
            }
        }
        Ok(None)
    }

    /// The prices that rows are worth.
    fn prices_of(&self, worths: &Solved) -> Result<Prices, AllocError> {
        let mut list = Vec::new(self.alloc);
        for worth in worths.list.iter().skip(1) {
            list.push(*worth)?;
        }
        Ok(Prices {
            unit: worths.unit,
            list,
        })
    }

    /// Takes the longest way from the start for a column. Whether it is new.
    pub fn add_path(&mut self) -> Result<bool, AllocError> {
        let links = self.longest.path()?;
        self.simplex.columns.add_path(self.net, links)
    }

    /// Takes cycles for columns. Whether one is new.
    fn add_cycles(&mut self, cycles: Vec<Vec<usize>>) -> Result<bool, AllocError> {
        let mut is_new = false;
        for cycle in cycles {
            is_new |= self.simplex.columns.add_cycle(self.net, cycle)?;
        }
        Ok(is_new)
    }
}
