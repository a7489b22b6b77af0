//! Whether a way leads back to where an edge begins, and in which loop: by what the plan has left,
//! and by what the counts allow.

use crate::loops::Loops;
use crate::marks::{Marks, bit_of};
use crate::places::Places;
use ceiling_optimum::Budget;
use ceiling_rows::{SiteEdge, SiteRow};
use std::alloc::{AllocError, Global};
use std::collections::HashMap;

/// What ways go through.
#[derive(Clone, Copy)]
pub struct Ground<'a> {
    pub rows: &'a [SiteRow],
    pub marks: &'a Marks,
    pub places: &'a Places,
    pub loops: &'a Loops,
}

/// What is asked of an edge of a site.
#[derive(Clone, Copy, PartialEq, Eq, Hash)]
pub struct Asked {
    pub site: usize,
    pub edge: usize,
    /// The marks that are used up behind the edge, a bit of each, until they are set back.
    pub shut: u64,
    /// Which kinds the plan has left, by how often one was used up before; none, where all serve.
    pub by_plan: Option<u32>,
}

/// The answers so far, and what they are looked for with.
#[derive(Drop)]
pub struct WaysBack {
    known: HashMap<Asked, usize>,
    /// By site, the marks that were shut on all ways there.
    shut: Vec<Option<u64>>,
    /// The sites that were met.
    met: Vec<usize>,
    ahead: Vec<usize>,
}

impl WaysBack {
    /// None was looked for yet.
    pub fn none(alloc: Global, sites: usize) -> Result<WaysBack, AllocError> {
        Ok(WaysBack {
            known: HashMap::new(alloc),
            shut: vec![in alloc; None; sites]?,
            met: Vec::new(alloc),
            ahead: Vec::new(alloc),
        })
    }

    /// How deep the innermost loop is within which a way leads back from an edge; 0 where none
    /// does. By the plan only kinds serve of which it has some left.
    pub fn depth(
        &mut self,
        ground: Ground<'_>,
        asked: Asked,
        left: &[i128],
        budget: &mut Budget,
    ) -> Result<usize, AllocError> {
        if let Some(depth) = self.known.get(&asked) {
            return Ok(*depth);
        }
        let mut depth = 0;
        if let Some(kind) = ground.places.kind_of(asked.site, asked.edge) {
            let deepest = ground.loops.chain(kind).len();
            for place in (0..deepest).rev() {
                let number = ground.loops.chain(kind).get(place).copied();
                let within = Within {
                    ground,
                    place,
                    number: number.unwrap_or(usize::MAX),
                    left: if asked.by_plan.is_some() {
                        Some(left)
                    } else {
                        None
                    },
                };
                if self.leads_back(within, asked, budget)? {
                    depth = place.saturating_add(1);
                    break;
                }
            }
        }
        self.known.insert(asked, depth)?;
        Ok(depth)
    }

    /// Whether a way leads back within a loop.
    fn leads_back(
        &mut self,
        within: Within<'_>,
        asked: Asked,
        budget: &mut Budget,
    ) -> Result<bool, AllocError> {
        self.forget();
        if let Some(edge) = within.ground.edge(asked.site, asked.edge) {
            self.meet(edge.onto, asked.shut)?;
        }
        let most = self.shut.len().saturating_mul(65);
        for _ in 0..most {
            let Some(site) = self.ahead.pop() else {
                break;
            };
            if site == asked.site {
                return Ok(true);
            }
            if !self.follow(within, site, budget)? {
                break;
            }
        }
        Ok(false)
    }

    /// Nothing was met.
    fn forget(&mut self) {
        for site in &self.met {
            if let Some(shut) = self.shut.get_mut(*site) {
                *shut = None;
            }
        }
        self.met.clear();
        self.ahead.clear();
    }

    /// Meets a site with marks shut, if fewer are than before.
    fn meet(&mut self, site: usize, shut: u64) -> Result<(), AllocError> {
        let Some(entry) = self.shut.get_mut(site) else {
            return Ok(());
        };
        let before = *entry;
        match before {
            None => {
                *entry = Some(shut);
                self.met.push(site)?;
                self.ahead.push(site)?;
            }
            Some(known) if known & !shut != 0 => {
                *entry = Some(known & shut);
                self.ahead.push(site)?;
            }
            Some(_) => {}
        }
        Ok(())
    }

    /// Follows the edges of a site. `false` where the steps are used up.
    fn follow(
        &mut self,
        within: Within<'_>,
        site: usize,
        budget: &mut Budget,
    ) -> Result<bool, AllocError> {
        let shut = match self.shut.get(site) {
            Some(Some(shut)) => *shut,
            _ => 0,
        };
        let Some(row) = within.ground.rows.get(site) else {
            return Ok(true);
        };
        for (index, edge) in row.edges.iter().enumerate() {
            if within.serves(site, index, edge, shut) {
                let back = within.ground.sets_back(edge);
                self.meet(edge.onto, shut & !back)?;
            }
        }
        Ok(budget.spend(row.edges.len() as u64))
    }
}

/// A loop that a way stays within.
#[derive(Clone, Copy)]
struct Within<'a> {
    ground: Ground<'a>,
    /// How many loops are around it.
    place: usize,
    number: usize,
    /// What the plan has left, where ways go by it.
    left: Option<&'a [i128]>,
}

impl Within<'_> {
    /// Whether a way may go along an edge.
    fn serves(self, site: usize, index: usize, edge: &SiteEdge, shut: u64) -> bool {
        if edge.mark.map_or(0, bit_of) & shut != 0 {
            return false;
        }
        let Some(kind) = self.ground.places.kind_of(site, index) else {
            return false;
        };
        if self.ground.loops.chain(kind).get(self.place).copied() != Some(self.number) {
            return false;
        }
        match self.left {
            Some(left) => left.get(kind).copied().unwrap_or(0) > 0,
            None => true,
        }
    }
}

impl<'a> Ground<'a> {
    /// These together.
    pub fn new(
        rows: &'a [SiteRow],
        marks: &'a Marks,
        places: &'a Places,
        loops: &'a Loops,
    ) -> Ground<'a> {
        Ground {
            rows,
            marks,
            places,
            loops,
        }
    }

    /// An edge of a site.
    pub fn edge(self, site: usize, edge: usize) -> Option<&'a SiteEdge> {
        self.rows.get(site)?.edges.get(edge)
    }

    /// The marks that an edge sets back.
    fn sets_back(self, edge: &SiteEdge) -> u64 {
        match edge.mark {
            Some(mark) => self.marks.at(mark).map_or(0, |standing| standing.inner),
            None => 0,
        }
    }
}
