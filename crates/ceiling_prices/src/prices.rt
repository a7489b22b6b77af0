//! Prices of the marks, and what edges take by them.

use crate::graph::Graph;
use crate::marks::Standing;
use ceiling_rows::SiteEdge;
use std::alloc::{AllocError, Global};

/// A price for each mark.
#[derive(Drop)]
pub struct Prices {
    pub list: Vec<i128>,
    /// What all passes of each mark cost, until one is passed that it stands inside of.
    whole: Vec<i128>,
}

/// What an edge costs in prices beside its time.
#[derive(Clone, Copy)]
pub struct Cost {
    /// What its mark's price pays, of the time and of the charge.
    pub pay: i128,
    /// What is owed anew where it leads.
    pub charge: i128,
}

impl Prices {
    /// All are 0.
    pub fn none(alloc: Global, marks: usize) -> Result<Prices, AllocError> {
        Ok(Prices {
            list: vec![in alloc; 0; marks]?,
            whole: vec![in alloc; 0; marks]?,
        })
    }

    /// The price of a mark.
    pub fn at(&self, mark: u8) -> i128 {
        self.list.get(usize::from(mark)).copied().unwrap_or(0)
    }

    /// Gives a mark a price.
    pub fn set(&mut self, mark: u8, price: i128, most: i128) {
        let place = usize::from(mark);
        if let Some(before) = self.list.get_mut(place) {
            *before = price;
        }
        if let Some(before) = self.whole.get_mut(place) {
            *before = price.saturating_mul(most);
        }
    }

    /// What all passes of some marks cost.
    pub fn sum(&self, some: u64) -> i128 {
        let mut left = some;
        let mut sum: i128 = 0;
        for whole in &self.whole {
            if left == 0 {
                break;
            }
            if left & 1 == 1 {
                sum = sum.saturating_add(*whole);
            }
            left >>= 1;
        }
        sum
    }

    /// What an edge costs from a site in the regions of some marks.
    pub fn cost(&self, graph: &Graph<'_>, here: u64, edge: &SiteEdge) -> Cost {
        let there = graph.regions.at(edge.onto);
        let marked = match edge.mark {
            Some(mark) => graph.marks.at(mark),
            None => None,
        };
        match (edge.mark, marked) {
            (Some(mark), Some(standing)) => self.cost_of_pass(mark, standing, here, there),
            _ => Cost {
                pay: 0,
                charge: self.sum(there & !here),
            },
        }
    }

    /// What a pass of a mark costs, from a site in the regions of some marks to one in those of
    /// others: those inside of it begin anew.
    fn cost_of_pass(&self, mark: u8, standing: Standing, here: u64, there: u64) -> Cost {
        let others = there & (!here | standing.inner) & !standing.bit;
        let charge = self.sum(others);
        if here & standing.bit != 0 {
            return Cost {
                pay: self.at(mark),
                charge,
            };
        }
        let left = standing.most.saturating_sub(1);
        let own = self.at(mark).saturating_mul(left);
        Cost {
            pay: 0,
            charge: if there & standing.bit == 0 {
                charge
            } else {
                charge.saturating_add(own)
            },
        }
    }
}

impl Cost {
    /// What an edge takes that costs this, less what its mark's price pays.
    pub fn along(self, edge: &SiteEdge) -> i128 {
        let time = i128::from(edge.time).saturating_add(self.charge);
        time.saturating_sub(self.pay)
    }
}
