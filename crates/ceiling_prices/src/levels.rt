//! What is owed at each site at prices, apart from what is owed for the passes that are left.

use crate::by_site::BySite;
use crate::graph::Graph;
use crate::prices::Prices;
use crate::reached::Reached;
use ceiling_rows::{SiteEdge, SiteRow};
use std::alloc::{AllocError, Global};

/// The most word times from each site on, less prices: below 0 where prices pay for all.
#[derive(Drop)]
pub struct Levels {
    pub owed: BySite,
    /// How many edges were looked at.
    pub looks: u64,
}

impl Levels {
    /// Nothing is owed yet.
    pub fn none(alloc: Global, count: usize) -> Result<Levels, AllocError> {
        let owed = BySite::none(alloc, count)?;
        Ok(Levels { owed, looks: 0 })
    }

    /// What is owed in all at the start, at prices; none, where a cycle takes longer than they pay.
    pub fn total(&mut self, graph: &Graph<'_>, prices: &Prices) -> Option<i128> {
        for site in &graph.reached.order {
            self.owed.set(*site, None);
        }
        let start = graph.reached.start;
        for _ in 0..=graph.reached.order.len() {
            if !self.sweep(graph, prices) {
                let whole = prices.sum(graph.regions.at(start));
                return Some(whole.saturating_add(self.owed.at(start)?).max(0));
            }
        }
        None
    }

    /// Looks at all sites, the last first. Whether more may follow.
    fn sweep(&mut self, graph: &Graph<'_>, prices: &Prices) -> bool {
        let mut has_more = false;
        for site in graph.reached.order.iter().rev() {
            if let Some(row) = graph.reached.row(*site) {
                has_more |= self.look(graph, prices, *site, row);
            }
        }
        has_more
    }

    /// Looks along the edges of a site. Whether more is owed than before at a site that an edge
    /// with a mark leads to.
    fn look(&mut self, graph: &Graph<'_>, prices: &Prices, site: usize, row: &SiteRow) -> bool {
        self.looks = self.looks.saturating_add(row.edges.len() as u64);
        let here = graph.regions.at(site);
        let before = self.owed.at(site);
        let mut most = before;
        if row.stop > 0 {
            most = most.max(Some(i128::from(row.stop)));
        }
        for edge in &row.edges {
            if graph.marks.lets(edge) {
                most = most.max(self.along(graph, prices, here, edge));
            }
        }
        // Where no hop may be made nothing is owed.
        let most = most.unwrap_or(0);
        if before == Some(most) {
            return false;
        }
        self.owed.set(site, Some(most));
        graph.leads.at(site) != 0
    }

    /// What is owed for an edge, from a site in the regions of some marks.
    fn along(
        &self,
        graph: &Graph<'_>,
        prices: &Prices,
        here: u64,
        edge: &SiteEdge,
    ) -> Option<i128> {
        let cost = prices.cost(graph, here, edge);
        let onward = self
            .owed
            .at(edge.onto)
            .map(|behind| cost.along(edge).saturating_add(behind));
        if edge.mark.is_none() {
            return onward;
        }
        onward.max(Some(i128::from(edge.stop).saturating_sub(cost.pay)))
    }

    /// How far below 0 what is owed lies at most.
    pub fn debt(&self, reached: &Reached<'_>) -> i128 {
        let zero: i128 = 0;
        let mut debt = zero;
        for site in &reached.order {
            let below = zero.saturating_sub(self.owed.at(*site).unwrap_or(0));
            debt = debt.max(below);
        }
        debt
    }
}
