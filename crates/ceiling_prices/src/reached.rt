//! Where walks come, in an order in which every edge without a mark goes on.

use crate::by_site::Bits;
use crate::marks::Marks;
use ceiling_rows::SiteRow;
use std::alloc::{AllocError, Global};

/// The rows of where walks come.
#[derive(Drop)]
pub struct Reached<'a> {
    rows: &'a [SiteRow],
    /// Where the start is found.
    pub start: usize,
    /// Where walks come, in an order in which every edge without a mark goes on.
    pub order: Vec<usize>,
}

impl<'a> Reached<'a> {
    /// Where walks come from the start, for an order of the sites in which every edge without a
    /// mark goes on.
    pub fn of(
        alloc: Global,
        rows: &'a [SiteRow],
        order: &[usize],
        start: usize,
        marks: &Marks,
    ) -> Result<Reached<'a>, AllocError> {
        let mut reached = Reached {
            rows,
            start,
            order: Vec::new(alloc),
        };
        let mut visits = Visits::none(alloc, rows.len())?;
        visits.visit_all(&reached, marks)?;
        for site in order {
            if visits.seen.at(*site) != 0 {
                reached.order.push(*site)?;
            }
        }
        Ok(reached)
    }

    /// How many sites there are.
    pub fn count(&self) -> usize {
        self.rows.len()
    }

    /// The row of a site.
    pub fn row(&self, site: usize) -> Option<&'a SiteRow> {
        self.rows.get(site)
    }
}

/// Visits from site to site.
#[derive(Drop)]
struct Visits {
    /// The sites that were met, each with some bit.
    seen: Bits,
    /// Those of them whose edges weren't followed yet.
    ahead: Vec<usize>,
}

impl Visits {
    /// None yet.
    fn none(alloc: Global, count: usize) -> Result<Visits, AllocError> {
        let seen = Bits::none(alloc, count)?;
        Ok(Visits {
            seen,
            ahead: Vec::new(alloc),
        })
    }

    /// Meets a site.
    fn meet(&mut self, site: usize) -> Result<(), AllocError> {
        if self.seen.add(site, 1) {
            self.ahead.push(site)?;
        }
        Ok(())
    }

    /// Follows the edges of a row.
    fn follow(&mut self, marks: &Marks, row: &SiteRow) -> Result<(), AllocError> {
        for edge in &row.edges {
            if marks.lets(edge) {
                self.meet(edge.onto)?;
            }
        }
        Ok(())
    }

    /// Meets the start, and follows the edges of all sites that are met. Each is met once.
    fn visit_all(&mut self, reached: &Reached<'_>, marks: &Marks) -> Result<(), AllocError> {
        self.meet(reached.start)?;
        for _ in 0..reached.count() {
            let Some(site) = self.ahead.pop() else {
                break;
            };
            if let Some(row) = reached.row(site) {
                self.follow(marks, row)?;
            }
        }
        Ok(())
    }
}
