//! The pieces of a walk: each hop once at each angle.

use crate::free::Step;
use crate::numbering::in_order;
use base_notes::Times;
use base_words::REVOLUTION;
use ceiling_rows::SiteRow;
use flow_graph::Hop;
use flow_walks::{Piece, Placed, Rounds};
use std::alloc::{AllocError, Global};
use std::collections::HashMap;

/// A piece that is there.
#[derive(Clone, Copy)]
pub struct Laid {
    /// Its number.
    pub piece: usize,
    /// The drum's angle when it ends.
    pub angle: u64,
}

/// A step whose hop begins at an angle.
#[derive(Clone, Copy, PartialEq, Eq, Hash)]
struct Begun {
    /// The number of the site.
    site: usize,
    /// The place of the edge.
    edge: Option<usize>,
    angle: u64,
}

/// The pieces so far.
#[derive(Drop)]
pub struct Laying<'a> {
    alloc: Global,
    times: &'a Times,
    rows: &'a [SiteRow],
    pieces: Vec<Piece>,
    hops: HashMap<Begun, Laid>,
    /// How many pieces are named by others, in all.
    named: usize,
}

impl<'a> Laying<'a> {
    /// How many pieces there are at most.
    const MOST: usize = 60_000;

    /// How many of them are named by others at most, in all.
    const MOST_NAMED: usize = 1_000_000;

    /// Without pieces.
    pub fn new(alloc: Global, times: &'a Times, rows: &'a [SiteRow]) -> Laying<'a> {
        Laying {
            alloc,
            times,
            rows,
            pieces: Vec::new(alloc),
            hops: HashMap::new(alloc),
            named: 0,
        }
    }

    /// Adds a piece. Its number; `None` where there is no room for it.
    fn add(&mut self, piece: Piece, named: usize) -> Result<Option<usize>, AllocError> {
        let number = self.pieces.len();
        self.named = self.named.saturating_add(named);
        if number >= Laying::MOST || self.named > Laying::MOST_NAMED {
            return Ok(None);
        }
        self.pieces.push(piece)?;
        Ok(Some(number))
    }

    /// Pieces in a row, the last of which ends at an angle.
    pub fn row(&mut self, pieces: Vec<usize>, angle: u64) -> Result<Option<Laid>, AllocError> {
        if let [piece] = pieces.as_slice() {
            let piece = *piece;
            return Ok(Some(Laid { piece, angle }));
        }
        let named = pieces.len();
        if named == 0 {
            return Ok(None);
        }
        let added = self.add(Piece::Row(pieces), named)?;
        Ok(added.map(|piece| Laid { piece, angle }))
    }

    /// One piece and then another.
    pub fn pair(&mut self, first: Laid, second: Laid) -> Result<Option<Laid>, AllocError> {
        let mut pieces = Vec::new(self.alloc);
        pieces.push(first.piece)?;
        pieces.push(second.piece)?;
        self.row(pieces, second.angle)
    }

    /// So many rounds of a piece that ends at the angle at which it begins.
    pub fn rounds(&mut self, times: u16, one: Laid) -> Result<Option<Laid>, AllocError> {
        if times <= 1 {
            return Ok(Some(one));
        }
        let piece = one.piece;
        let added = self.add(Piece::Rounds(Rounds { times, piece }), 1)?;
        Ok(added.map(|piece| Laid {
            piece,
            angle: one.angle,
        }))
    }

    /// Steps in a row, the first of which begins at an angle.
    pub fn way(&mut self, steps: &[Step], angle: u64) -> Result<Option<Laid>, AllocError> {
        let mut pieces = Vec::new(self.alloc);
        let mut angle = angle;
        for step in steps {
            let Some(laid) = self.step(*step, angle)? else {
                return Ok(None);
            };
            pieces.push(laid.piece)?;
            angle = laid.angle;
        }
        self.row(pieces, angle)
    }

    /// The hop of a step.
    fn hop_of(&self, step: Step) -> Option<Hop> {
        let row = self.rows.get(step.from)?;
        match step.edge {
            Some(edge) => Some(row.edges.get(edge)?.hop),
            None => row.last,
        }
    }

    /// A step that begins at an angle.
    pub fn step(&mut self, step: Step, angle: u64) -> Result<Option<Laid>, AllocError> {
        let begun = Begun {
            site: step.from,
            edge: step.edge,
            angle,
        };
        if let Some(laid) = self.hops.get(&begun) {
            return Ok(Some(*laid));
        }
        let Some(laid) = self.new_step(step, angle)? else {
            return Ok(None);
        };
        self.hops.insert(begun, laid)?;
        Ok(Some(laid))
    }

    /// A step that begins at an angle, of which there is no piece yet.
    fn new_step(&mut self, step: Step, angle: u64) -> Result<Option<Laid>, AllocError> {
        let (Some(hop), Some(row)) = (self.hop_of(step), self.rows.get(step.from)) else {
            return Ok(None);
        };
        if angle >= REVOLUTION {
            return Ok(None);
        }
        let placed = Placed {
            location: row.location,
            angle,
            hop,
        };
        let angle = (angle + placed.longest(self.times)) % REVOLUTION;
        let added = self.add(Piece::Hop(placed), 0)?;
        Ok(added.map(|piece| Laid { piece, angle }))
    }

    /// The pieces that this one spells out with those that it names, in order.
    pub fn finish(self, whole: usize) -> Result<Vec<Piece>, AllocError> {
        in_order(self.alloc, &self.pieces, whole)
    }
}
