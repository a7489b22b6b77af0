//! The longest ways free of marks.

use ceiling_rows::SiteRow;
use std::alloc::{AllocError, Global};

/// A step along an edge.
#[derive(Clone, Copy)]
pub struct Step {
    /// Where it begins.
    pub from: usize,
    /// The place of the edge in the row there; `None` for the last hop.
    pub edge: Option<usize>,
}

/// A way to a site.
#[derive(Clone, Copy)]
pub struct Way {
    /// The word times that it takes.
    pub time: u64,
    /// Its last step; `None` of the way that has none.
    pub before: Option<Step>,
}

/// A last hop.
#[derive(Clone, Copy)]
pub struct Last {
    /// The word times until it ends, and 49 more.
    pub time: u64,
    /// Where its instruction is found.
    pub from: usize,
}

/// The longest ways free of marks from a site to each; none, where no way leads.
#[derive(Drop)]
pub struct Free {
    entries: Vec<Option<Way>>,
    /// The last hop that ends last; none, where all ways pass marks.
    pub last: Option<Last>,
}

impl Free {
    /// Those from a site, by one sweep over the sites in an order in which every edge without a
    /// mark goes on.
    pub fn from(
        alloc: Global,
        rows: &[SiteRow],
        sites: &[usize],
        source: usize,
    ) -> Result<Free, AllocError> {
        let mut free = Free {
            entries: vec![in alloc; None; rows.len()]?,
            last: None,
        };
        free.raise(
            source,
            Way {
                time: 0,
                before: None,
            },
        );
        for site in sites {
            if let (Some(way), Some(row)) = (free.at(*site), rows.get(*site)) {
                free.follow(*site, way.time, row);
                free.end(*site, way.time, row);
            }
        }
        Ok(free)
    }

    /// The way to a site.
    pub fn at(&self, site: usize) -> Option<Way> {
        match self.entries.get(site) {
            Some(way) => *way,
            None => None,
        }
    }

    /// Takes a way to a site, if it is longer than the one that is known.
    fn raise(&mut self, site: usize, way: Way) {
        let is_longer = match self.at(site) {
            Some(known) => known.time < way.time,
            None => true,
        };
        if is_longer {
            self.put(site, way);
        }
    }

    /// Puts down a way to a site.
    fn put(&mut self, site: usize, way: Way) {
        if let Some(entry) = self.entries.get_mut(site) {
            *entry = Some(way);
        }
    }

    /// Follows the edges of a row that have no mark.
    fn follow(&mut self, from: usize, time: u64, row: &SiteRow) {
        for (index, edge) in row.edges.iter().enumerate() {
            if edge.mark.is_none() {
                let step = Step {
                    from,
                    edge: Some(index),
                };
                let way = Way {
                    time: time.saturating_add(u64::from(edge.time)),
                    before: Some(step),
                };
                self.raise(edge.onto, way);
            }
        }
    }

    /// Takes the last hop of a row, if it ends later than the one that is known.
    fn end(&mut self, from: usize, time: u64, row: &SiteRow) {
        let time = time.saturating_add(u64::from(row.stop));
        let known = self.last.map_or(0, |last| last.time);
        if row.last.is_some() && known < time {
            self.last = Some(Last { time, from });
        }
    }

    /// The steps of the way to a site, and then one more.
    pub fn steps(&self, alloc: Global, last: Step) -> Result<Vec<Step>, AllocError> {
        let mut steps = Vec::new(alloc);
        let mut next = Some(last);
        for _ in 0..=self.entries.len() {
            let Some(step) = next else {
                break;
            };
            steps.push(step)?;
            next = match self.at(step.from) {
                Some(way) => way.before,
                None => None,
            };
        }
        steps.reverse();
        Ok(steps)
    }
}
