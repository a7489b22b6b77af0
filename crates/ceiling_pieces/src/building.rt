//! The pieces of whole walks: each walk once at each angle.

use crate::laying::{Laid, Laying};
use crate::sources::Sources;
use crate::walks::{Walk, Walks};
use base_notes::Times;
use ceiling_rows::SiteRow;
use flow_walks::Piece;
use std::alloc::{AllocError, Global};
use std::collections::HashMap;

/// A walk that begins at an angle.
#[derive(Clone, Copy, PartialEq, Eq, Hash)]
struct Begun {
    walk: usize,
    /// The drum's angle when the search for its first location begins.
    angle: u64,
}

/// The walks that have pieces.
#[derive(Drop)]
pub struct Building<'a> {
    alloc: Global,
    sources: &'a Sources,
    walks: &'a Walks,
    laying: Laying<'a>,
    laid: HashMap<Begun, Laid>,
}

impl<'a> Building<'a> {
    /// None yet.
    pub fn new(
        alloc: Global,
        times: &'a Times,
        rows: &'a [SiteRow],
        sources: &'a Sources,
        walks: &'a Walks,
    ) -> Building<'a> {
        Building {
            alloc,
            sources,
            walks,
            laying: Laying::new(alloc, times, rows),
            laid: HashMap::new(alloc),
        }
    }

    /// A walk that begins at an angle; `None` where it can't be built.
    pub fn build(&mut self, walk: usize, angle: u64) -> Result<Option<Laid>, AllocError> {
        let begun = Begun { walk, angle };
        if let Some(laid) = self.laid.get(&begun) {
            return Ok(Some(*laid));
        }
        let Some(parts) = self.parts(walk) else {
            let built = self.way(walk, angle)?;
            return self.keep(begun, built);
        };
        let (first, second) = parts;
        if first >= walk || second >= walk {
            return Ok(None);
        }
        let Some(one) = self.build(first, angle)? else {
            return Ok(None);
        };
        let Some(other) = self.build(second, one.angle)? else {
            return Ok(None);
        };
        let built = self.put_together(begun, one, other)?;
        self.keep(begun, built)
    }

    /// The two walks that one begins with; `None` of a way.
    fn parts(&self, walk: usize) -> Option<(usize, usize)> {
        match self.walks.at(walk)? {
            Walk::None | Walk::Way(_, _) => None,
            Walk::Then(first, second) => Some((first, second)),
            Walk::Rounds(_, one) => Some((one, one)),
        }
    }

    /// Keeps what a walk comes to.
    fn keep(&mut self, begun: Begun, built: Option<Laid>) -> Result<Option<Laid>, AllocError> {
        if let Some(laid) = built {
            self.laid.insert(begun, laid)?;
        }
        Ok(built)
    }

    /// A way that begins at an angle.
    fn way(&mut self, walk: usize, angle: u64) -> Result<Option<Laid>, AllocError> {
        let Some(Walk::Way(source, last)) = self.walks.at(walk) else {
            return Ok(None);
        };
        let Some(free) = self.sources.free.get(source) else {
            return Ok(None);
        };
        let steps = free.steps(self.alloc, last)?;
        self.laying.way(&steps, angle)
    }

    /// A walk by the pieces of the two that it begins with.
    fn put_together(
        &mut self,
        begun: Begun,
        one: Laid,
        other: Laid,
    ) -> Result<Option<Laid>, AllocError> {
        let Some(Walk::Rounds(times, _)) = self.walks.at(begun.walk) else {
            return self.laying.pair(one, other);
        };
        if one.angle == begun.angle {
            return self.laying.rounds(times, one);
        }
        if other.angle != one.angle {
            return Ok(None);
        }
        let Some(others) = self.laying.rounds(times.saturating_sub(1), other)? else {
            return Ok(None);
        };
        self.laying.pair(one, others)
    }

    /// The pieces, the last of which is this one; none, where there is none.
    pub fn finish(self, built: Option<Laid>) -> Result<Vec<Piece>, AllocError> {
        let Building { alloc, laying, .. } = self;
        match built {
            Some(laid) => laying.finish(laid.piece),
            None => Ok(Vec::new(alloc)),
        }
    }
}
