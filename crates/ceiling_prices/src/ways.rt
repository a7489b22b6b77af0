//! The longest ways to a mark's edges, in its region.

use crate::by_site::BySite;
use crate::graph::Graph;
use crate::marks::bit_of;
use crate::prices::Prices;
use ceiling_rows::{SiteEdge, SiteRow};
use std::alloc::{AllocError, Global};

/// A way that passes a mark with its last edge, and no other edge of it.
#[derive(Clone, Copy, PartialEq, Eq)]
pub struct Round {
    /// The word times that it takes, less prices, with what is ahead of its end.
    pub time: i128,
    /// Where the last edge leads.
    pub head: usize,
}

impl Round {
    /// The longer of two, the first where they are as long.
    fn longer(first: Option<Round>, second: Option<Round>) -> Option<Round> {
        match (first, second) {
            (Some(one), Some(other)) if one.time < other.time => second,
            (None, _) => second,
            _ => first,
        }
    }
}

/// The longest way from each site of a mark's region; none, where none was found.
#[derive(Drop)]
pub struct Ways {
    entries: Vec<Option<Round>>,
    /// How many edges were looked at.
    pub looks: u64,
}

/// The ways that are looked for: to edges of a mark, along edges without marks and of some.
#[derive(Clone, Copy)]
pub struct Sought<'a> {
    pub graph: &'a Graph<'a>,
    pub prices: &'a Prices,
    /// The mark's bit.
    pub own: u64,
    /// The other marks whose edges they may pass.
    pub others: u64,
}

impl Ways {
    /// None was found yet.
    pub fn none(alloc: Global, count: usize) -> Result<Ways, AllocError> {
        Ok(Ways {
            entries: vec![in alloc; None; count]?,
            looks: 0,
        })
    }

    /// The longest way from a site.
    pub fn at(&self, site: usize) -> Option<Round> {
        match self.entries.get(site) {
            Some(round) => *round,
            None => None,
        }
    }

    fn set(&mut self, site: usize, round: Option<Round>) {
        if let Some(entry) = self.entries.get_mut(site) {
            *entry = round;
        }
    }

    /// Finds the longest ways from the sites of a region, in the order; what is ahead of where they
    /// end is known.
    pub fn follow(&mut self, sought: Sought<'_>, sites: &[usize], ahead: &BySite) {
        for site in sites {
            self.set(*site, None);
        }
        for _ in 0..=sites.len() {
            if !self.sweep(sought, sites, ahead) {
                break;
            }
        }
    }

    /// Looks at all sites, the last first. Whether more may follow.
    fn sweep(&mut self, sought: Sought<'_>, sites: &[usize], ahead: &BySite) -> bool {
        let mut has_more = false;
        for site in sites.iter().rev() {
            if let Some(row) = sought.graph.reached.row(*site) {
                has_more |= self.look(sought, *site, row, ahead);
            }
        }
        has_more
    }

    /// Looks along the edges of a site. Whether there is a longer way from a site that an edge with
    /// another mark leads to.
    fn look(&mut self, sought: Sought<'_>, site: usize, row: &SiteRow, ahead: &BySite) -> bool {
        self.looks = self.looks.saturating_add(row.edges.len() as u64);
        let here = sought.graph.regions.at(site);
        let before = self.at(site);
        let mut longest = before;
        for edge in &row.edges {
            longest = Round::longer(longest, self.along(sought, here, edge, ahead));
        }
        if longest == before {
            return false;
        }
        self.set(site, longest);
        sought.graph.leads.at(site) & sought.others != 0
    }

    /// The longest way that begins with an edge, from a site in the regions of some marks.
    fn along(
        &self,
        sought: Sought<'_>,
        here: u64,
        edge: &SiteEdge,
        ahead: &BySite,
    ) -> Option<Round> {
        let bit = edge.mark.map_or(0, bit_of);
        let there = sought.graph.regions.at(edge.onto);
        if there & sought.own == 0 || bit & !(sought.own | sought.others) != 0 {
            return None;
        }
        let behind = if bit == sought.own {
            Round {
                time: ahead.at(edge.onto)?,
                head: edge.onto,
            }
        } else {
            self.at(edge.onto)?
        };
        let time = sought.prices.cost(sought.graph, here, edge).along(edge);
        Some(Round {
            time: behind.time.saturating_add(time),
            head: behind.head,
        })
    }
}
