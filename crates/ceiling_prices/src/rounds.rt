//! What the price of a mark has to be, once others have theirs: so much that no cycle of passes of
//! it takes longer than its prices pay.

use crate::by_site::BySite;
use crate::cycles::Cycles;
use crate::graph::Graph;
use crate::marks::bit_of;
use crate::ways::{Sought, Ways};
use ceiling_rows::SiteRow;
use std::alloc::{AllocError, Global};

/// How many times it is looked for cycles at most, for each head and beside.
const MOST_SEARCHES: usize = 4;

/// The tables that a mark's rounds are looked for with.
#[derive(Drop)]
pub struct Rounds {
    pub ways: Ways,
    cycles: Cycles,
    /// By head, the most that it takes on from there, less prices.
    ahead: BySite,
}

impl Rounds {
    /// None was looked for yet.
    pub fn none(alloc: Global, count: usize) -> Result<Rounds, AllocError> {
        let ways = Ways::none(alloc, count)?;
        let cycles = Cycles::none(alloc, count)?;
        let ahead = BySite::none(alloc, count)?;
        Ok(Rounds {
            ways,
            cycles,
            ahead,
        })
    }

    /// The least price of the sought mark, no lower than this one.
    pub fn price(
        &mut self,
        alloc: Global,
        sought: Sought<'_>,
        sites: &[usize],
        least: i128,
    ) -> Result<i128, AllocError> {
        let heads = heads_of(alloc, sought.graph, sought.own, sites)?;
        for head in &heads {
            self.ahead.set(*head, Some(0));
        }
        self.ways.follow(sought, sites, &self.ahead);
        let longest = self.longest(&heads);
        if heads.len() < 2 {
            return Ok(longest.max(least));
        }
        Ok(self.price_of_many(sought, sites, &heads, longest, least))
    }

    /// The longest of the ways from heads; 0 where there is none.
    fn longest(&self, heads: &[usize]) -> i128 {
        let mut longest = 0;
        for head in heads {
            longest = self.ways.at(*head).map_or(0, |way| way.time).max(longest);
        }
        longest
    }

    /// The least price, where there are several heads: it rises with the cycles that are found,
    /// until nothing more is owed at a head. The longest way is always enough.
    fn price_of_many(
        &mut self,
        sought: Sought<'_>,
        sites: &[usize],
        heads: &[usize],
        longest: i128,
        least: i128,
    ) -> i128 {
        let mut price = least;
        for _ in 0..heads.len().saturating_mul(MOST_SEARCHES) {
            price = self.cycles.mean(heads, &self.ways, &self.ahead).max(price);
            if !self.owe(heads, price) {
                return price;
            }
            self.ways.follow(sought, sites, &self.ahead);
        }
        longest.max(least)
    }

    /// Owes what it takes on from each head at this price. Whether that is more than before at one.
    fn owe(&mut self, heads: &[usize], price: i128) -> bool {
        let mut is_more = false;
        for head in heads {
            let owed = self.ways.at(*head).map_or(0, |way| way.time);
            let owed = owed.saturating_sub(price);
            if self.ahead.at(*head).unwrap_or(0) < owed {
                self.ahead.set(*head, Some(owed));
                is_more = true;
            }
        }
        is_more
    }
}

/// The sites to which edges of a mark lead within its region.
fn heads_of(
    alloc: Global,
    graph: &Graph<'_>,
    own: u64,
    sites: &[usize],
) -> Result<Vec<usize>, AllocError> {
    let mut seen = BySite::none(alloc, graph.reached.count())?;
    let mut heads = Vec::new(alloc);
    for site in sites {
        if let Some(row) = graph.reached.row(*site) {
            add_heads(&mut heads, &mut seen, graph, own, row)?;
        }
    }
    Ok(heads)
}

/// Adds those that edges of a row lead to.
fn add_heads(
    heads: &mut Vec<usize>,
    seen: &mut BySite,
    graph: &Graph<'_>,
    own: u64,
    row: &SiteRow,
) -> Result<(), AllocError> {
    for edge in &row.edges {
        let bit = edge.mark.map_or(0, bit_of);
        let is_within = graph.regions.at(edge.onto) & own != 0;
        if bit == own && is_within && seen.at(edge.onto).is_none() {
            seen.set(edge.onto, Some(0));
            heads.push(edge.onto)?;
        }
    }
    Ok(())
}
