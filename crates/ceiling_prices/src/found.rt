//! What the search hands out.

use crate::by_site::{Bits, BySite};
use crate::graph::Graph;
use crate::levels::Levels;
use crate::marks::Standing;
use ceiling_optimum::Share;
use std::alloc::{AllocError, Global};

/// Prices of the marks, with what goes with them.
#[derive(Drop)]
pub struct Found {
    /// The price of a pass of each mark.
    pub prices: Vec<u128>,
    /// By the numbers of sites, the marks in whose regions they lie: a bit of each, by its index.
    pub regions: Vec<u64>,
    /// By the numbers of sites, their levels; `None` where no walk comes.
    pub levels: Vec<Option<u128>>,
    /// How much more the levels are than what is owed, so that none of them is below 0.
    pub debt: u128,
    /// The ways that the prices were found by, each with how often it is taken.
    pub shares: Vec<Share>,
}

impl Found {
    /// Prices with the levels that go with them.
    pub fn of(
        alloc: Global,
        graph: Graph<'_>,
        prices: &[i128],
        found: &Levels,
        shares: Vec<Share>,
    ) -> Result<Found, AllocError> {
        let debt = found.debt(&graph.reached);
        let Graph { marks, regions, .. } = graph;
        let Bits {
            entries: regions,
            ..
        } = regions;
        Ok(Found {
            prices: marks
                .list
                .iter()
                .zip(prices)
                .map(|(mark, price)| price_of(*mark, *price))
                .collect(alloc)?,
            regions,
            levels: raised(alloc, &found.owed, debt)?,
            debt: natural(debt),
            shares,
        })
    }
}

/// The price of a mark; 0 where it may never be passed, so that no such price is too high.
fn price_of(mark: Standing, price: i128) -> u128 {
    if mark.most == 0 { 0 } else { natural(price) }
}

/// What is owed at each site, and the debt.
fn raised(alloc: Global, owed: &BySite, debt: i128) -> Result<Vec<Option<u128>>, AllocError> {
    let mut levels = Vec::new(alloc);
    for owed in &owed.entries {
        levels.push(owed.map(|owed| natural(owed.saturating_add(debt))))?;
    }
    Ok(levels)
}

/// A number, or 0 if it is less.
fn natural(number: i128) -> u128 {
    number.max(0).unsigned_abs()
}
