//! Sources: where the start is found, and where passes of marks lead.

use crate::free::Free;
use crate::passings::Passings;
use base_notes::Mark;
use ceiling_rows::SiteRow;
use std::alloc::{AllocError, Global};

/// The sources, the start first, with the longest ways free of marks from each.
#[derive(Drop)]
pub struct Sources {
    pub list: Vec<usize>,
    pub free: Vec<Free>,
}

impl Sources {
    /// How many there are at most; others are left out.
    const MOST: usize = 96;

    /// Those that walks come to, by the rows, the sites in their order, and the edges with marks.
    pub fn of(
        alloc: Global,
        rows: &[SiteRow],
        sites: &[usize],
        start: usize,
        passings: &Passings,
        marks: &[Mark],
    ) -> Result<Sources, AllocError> {
        let mut list = Vec::new(alloc);
        list.push(start)?;
        let mut sources = Sources {
            list,
            free: Vec::new(alloc),
        };
        for index in 0..Sources::MOST {
            let Some(source) = sources.list.get(index).copied() else {
                break;
            };
            let free = Free::from(alloc, rows, sites, source)?;
            sources.add_behind(&free, passings, marks)?;
            sources.free.push(free)?;
        }
        Ok(sources)
    }

    /// The index of a source.
    pub fn index_of(&self, site: usize) -> Option<usize> {
        self.list.iter().position(|source| *source == site)
    }

    /// Adds where passes lead to which there is a way.
    fn add_behind(
        &mut self,
        free: &Free,
        passings: &Passings,
        marks: &[Mark],
    ) -> Result<(), AllocError> {
        for passing in &passings.list {
            let is_open = marks.get(passing.mark).is_some_and(|mark| mark.most > 0);
            if is_open && free.at(passing.from).is_some() {
                self.add(passing.onto)?;
            }
        }
        Ok(())
    }

    /// Adds a source that isn't there yet, as long as there is room.
    fn add(&mut self, site: usize) -> Result<(), AllocError> {
        if self.list.len() < Sources::MOST && !self.list.contains(&site) {
            self.list.push(site)?;
        }
        Ok(())
    }
}
