//! The edges with marks, in the order of the flow.

use crate::sources::Sources;
use ceiling_rows::SiteRow;
use std::alloc::{AllocError, Global};

/// An edge with a mark.
#[derive(Clone, Copy)]
pub struct Passing {
    /// Where it begins.
    pub from: usize,
    /// Its place among the edges of the row there.
    pub edge: usize,
    /// The index of its mark.
    pub mark: usize,
    /// Where it leads.
    pub onto: usize,
    /// The most word times that it takes.
    pub time: u64,
    /// The most until its hop ends, and 49 more.
    pub stop: u64,
}

/// An edge with a mark that leads to a source.
#[derive(Clone, Copy)]
pub struct Landing {
    /// Where it begins.
    pub from: usize,
    /// The index of the source.
    pub source: usize,
}

/// The edges with marks, in an order of where they begin.
#[derive(Drop)]
pub struct Passings {
    pub list: Vec<Passing>,
}

impl Passings {
    /// Those of the rows, in the order of their sites.
    pub fn of(alloc: Global, rows: &[SiteRow], sites: &[usize]) -> Result<Passings, AllocError> {
        let list = Vec::new(alloc);
        let mut passings = Passings { list };
        for site in sites {
            if let Some(row) = rows.get(*site) {
                passings.add(*site, row)?;
            }
        }
        Ok(passings)
    }

    /// Adds those of a row.
    fn add(&mut self, from: usize, row: &SiteRow) -> Result<(), AllocError> {
        for (index, edge) in row.edges.iter().enumerate() {
            if let Some(mark) = edge.mark {
                self.list.push(Passing {
                    from,
                    edge: index,
                    mark: usize::from(mark),
                    onto: edge.onto,
                    time: u64::from(edge.time),
                    stop: u64::from(edge.stop),
                })?;
            }
        }
        Ok(())
    }

    /// Those of a mark that lead to sources.
    pub fn landings(
        &self,
        alloc: Global,
        mark: usize,
        sources: &Sources,
    ) -> Result<Vec<Landing>, AllocError> {
        let mut landings = Vec::new(alloc);
        for passing in &self.list {
            if passing.mark == mark
                && let Some(source) = sources.index_of(passing.onto)
            {
                let from = passing.from;
                landings.push(Landing { from, source })?;
            }
        }
        Ok(landings)
    }

    /// The marks, those first that stand first on an edge.
    pub fn order(&self, alloc: Global, marks: usize) -> Result<Vec<usize>, AllocError> {
        let mut order = Vec::new(alloc);
        for passing in &self.list {
            add_once(&mut order, passing.mark)?;
        }
        for mark in 0..marks {
            add_once(&mut order, mark)?;
        }
        Ok(order)
    }
}

/// Adds a mark that isn't there yet.
fn add_once(marks: &mut Vec<usize>, mark: usize) -> Result<(), AllocError> {
    if !marks.contains(&mark) {
        marks.push(mark)?;
    }
    Ok(())
}
