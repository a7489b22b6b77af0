//! The graph that is searched: where walks come, the marks, and their regions.

use crate::by_site::Bits;
use crate::marks::{Marks, Standing, bit_of};
use crate::reached::Reached;
use crate::regions::{leads_of, regions_of};
use base_notes::Mark;
use ceiling_rows::SiteRow;
use std::alloc::{AllocError, Global};

/// The rows of where walks come, with the marks and their regions.
#[derive(Drop)]
pub struct Graph<'a> {
    pub reached: Reached<'a>,
    pub marks: Marks,
    /// By site, the marks whose edges lead there.
    pub leads: Bits,
    /// By site, the marks in whose region it is.
    pub regions: Bits,
}

impl<'a> Graph<'a> {
    /// That of rows, for an order of the sites in which every edge without a mark goes on.
    pub fn of(
        alloc: Global,
        rows: &'a [SiteRow],
        order: &[usize],
        start: usize,
        marks: &[Mark],
    ) -> Result<Graph<'a>, AllocError> {
        let marks = Marks::of(alloc, marks)?;
        let reached = Reached::of(alloc, rows, order, start, &marks)?;
        let leads = leads_of(alloc, &reached, &marks)?;
        let regions = regions_of(alloc, &reached, &marks, &leads)?;
        Ok(Graph {
            reached,
            marks,
            leads,
            regions,
        })
    }

    /// The sites of a mark's region, in the order.
    pub fn region_of(&self, alloc: Global, bit: u64) -> Result<Vec<usize>, AllocError> {
        let mut sites = Vec::new(alloc);
        for site in &self.reached.order {
            if self.regions.at(*site) & bit != 0 {
                sites.push(*site)?;
            }
        }
        Ok(sites)
    }

    /// The marks beside one whose regions have a site of its region.
    pub fn sharing(&self, mark: Standing) -> u64 {
        let mut some = 0;
        for site in &self.reached.order {
            let here = self.regions.at(*site);
            if here & mark.bit != 0 {
                some |= here;
            }
        }
        some & !(mark.bit | mark.inner | mark.outer)
    }

    /// How many edges have a mark.
    pub fn edges_of(&self, bit: u64) -> usize {
        let mut edges: usize = 0;
        for site in &self.reached.order {
            if let Some(row) = self.reached.row(*site) {
                let own = row
                    .edges
                    .iter()
                    .filter(|edge| edge.mark.map_or(0, bit_of) == bit);
                edges = edges.saturating_add(own.count());
            }
        }
        edges
    }
}
