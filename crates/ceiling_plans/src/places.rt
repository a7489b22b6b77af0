//! Places and kinds: a plan counts passes from place to place, whatever else a site is told apart
//! by.

use ceiling_rows::SiteRow;
use std::alloc::{AllocError, Global};
use std::collections::HashMap;

/// The edges from one place to another, with the same mark.
#[derive(Clone, Copy, PartialEq, Eq, Hash)]
pub struct Kind {
    pub from: usize,
    pub onto: usize,
    pub mark: Option<u8>,
}

/// Locations by numbers of their own, and the kinds of the edges between them.
#[derive(Drop)]
pub struct Places {
    /// By site, its place.
    of_sites: Vec<usize>,
    /// How many there are.
    pub count: usize,
    pub kinds: Vec<Kind>,
    /// By site, the kind of each edge of its row.
    of_edges: Vec<Vec<usize>>,
}

impl Places {
    /// Those of rows.
    pub fn of(alloc: Global, rows: &[SiteRow]) -> Result<Places, AllocError> {
        let mut places = Places {
            of_sites: Vec::new(alloc),
            count: 0,
            kinds: Vec::new(alloc),
            of_edges: Vec::new(alloc),
        };
        places.number(alloc, rows)?;
        let mut known = HashMap::new(alloc);
        for (site, row) in rows.iter().enumerate() {
            let of_row = places.kinds_of(alloc, site, row, &mut known)?;
            places.of_edges.push(of_row)?;
        }
        Ok(places)
    }

    /// Numbers the locations.
    fn number(&mut self, alloc: Global, rows: &[SiteRow]) -> Result<(), AllocError> {
        let mut known: HashMap<u16, usize> = HashMap::new(alloc);
        for row in rows {
            let location = row.location.number;
            let place = match known.get(&location) {
                Some(place) => *place,
                None => {
                    let place = self.count;
                    self.count = self.count.saturating_add(1);
                    known.insert(location, place)?;
                    place
                }
            };
            self.of_sites.push(place)?;
        }
        Ok(())
    }

    /// The kinds of a row's edges.
    fn kinds_of(
        &mut self,
        alloc: Global,
        site: usize,
        row: &SiteRow,
        known: &mut HashMap<Kind, usize>,
    ) -> Result<Vec<usize>, AllocError> {
        let mut kinds = Vec::new(alloc);
        for edge in &row.edges {
            let kind = Kind {
                from: self.at(site),
                onto: self.at(edge.onto),
                mark: edge.mark,
            };
            kinds.push(self.number_of(kind, known)?)?;
        }
        Ok(kinds)
    }

    /// The number of a kind, a new one if it has none yet.
    fn number_of(
        &mut self,
        kind: Kind,
        known: &mut HashMap<Kind, usize>,
    ) -> Result<usize, AllocError> {
        if let Some(number) = known.get(&kind) {
            return Ok(*number);
        }
        let number = self.kinds.len();
        known.insert(kind, number)?;
        self.kinds.push(kind)?;
        Ok(number)
    }

    /// The place of a site.
    pub fn at(&self, site: usize) -> usize {
        self.of_sites.get(site).copied().unwrap_or(usize::MAX)
    }

    /// The kind of an edge of a site.
    pub fn kind_of(&self, site: usize, edge: usize) -> Option<usize> {
        self.of_edges.get(site)?.get(edge).copied()
    }

    /// The kind with a number.
    pub fn kind(&self, number: usize) -> Option<Kind> {
        self.kinds.get(number).copied()
    }
}
