//! Prices by an order of the marks: each price is as low as those before it allow. A cycle that
//! passes several is paid for by the last.

use crate::graph::Graph;
use crate::marks::bit_of;
use crate::prices::Prices;
use crate::rounds::Rounds;
use crate::ways::Sought;
use std::alloc::{AllocError, Global};

/// The regions of the marks, and the tables that prices are looked for with.
#[derive(Drop)]
pub struct Settling {
    /// By mark, the sites of its region in the order.
    regions: Vec<Vec<usize>>,
    pub rounds: Rounds,
}

impl Settling {
    /// Nothing was looked for yet.
    pub fn new(alloc: Global, graph: &Graph<'_>) -> Result<Settling, AllocError> {
        let mut regions = Vec::new(alloc);
        for mark in &graph.marks.list {
            regions.push(graph.region_of(alloc, mark.bit)?)?;
        }
        let rounds = Rounds::none(alloc, graph.reached.count())?;
        Ok(Settling { regions, rounds })
    }

    /// The prices by an order in which inner marks come before outer ones, none lower than the
    /// least that is given for it.
    pub fn settle(
        &mut self,
        alloc: Global,
        graph: &Graph<'_>,
        order: &[u8],
        least: &[i128],
    ) -> Result<Prices, AllocError> {
        let mut prices = Prices::none(alloc, graph.marks.list.len())?;
        let mut settled = 0;
        for mark in order {
            if let Some(standing) = graph.marks.at(*mark) {
                let price = self.price(alloc, graph, &prices, *mark, settled, least)?;
                prices.set(*mark, price, standing.most);
                settled |= standing.bit;
            }
        }
        Ok(prices)
    }

    /// The price of a mark, once the settled ones have theirs.
    fn price(
        &mut self,
        alloc: Global,
        graph: &Graph<'_>,
        prices: &Prices,
        mark: u8,
        settled: u64,
        least: &[i128],
    ) -> Result<i128, AllocError> {
        let least = least.get(usize::from(mark)).copied().unwrap_or(0);
        let Some(sites) = self.regions.get(usize::from(mark)) else {
            return Ok(least);
        };
        let sought = Sought {
            graph,
            prices,
            own: bit_of(mark),
            others: settled,
        };
        self.rounds.price(alloc, sought, sites, least)
    }
}
