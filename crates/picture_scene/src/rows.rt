//! Which revolutions are drawn, and the hops in them.

use crate::drawn_hop::DrawnHop;
use base_words::Location;
use std::alloc::{AllocError, Global};

/// How many rows the page has room for where it is no longer than wide; walks in rounds may have
/// more.
pub const PAGE_ROWS: usize = 24;

/// What stands between a row and the row above it.
#[derive(Clone, Copy)]
pub enum Above {
    /// Nothing: time goes on.
    Nothing,
    /// Revolutions in which the machine only waits for cards are left out.
    Cards,
    /// Time jumps.
    Jump,
}

/// A revolution that is drawn, as a row.
#[derive(Clone, Copy)]
pub struct Row {
    /// Which one of the walk's, from 0.
    pub revolution: u128,
    pub above: Above,
}

/// The revolutions that are drawn, one a row, and the hops that begin in them.
#[derive(Drop)]
pub struct Rows {
    /// The revolutions, in order; but for some that cards are waited for from their beginning to
    /// their end, and those that time jumps over.
    pub shown: Vec<Row>,
    /// The hops, in order.
    pub hops: Vec<DrawnHop>,
    /// How many rows there are at most.
    most: usize,
    /// Whether time jumps before the next hop.
    jumps: bool,
}

impl Rows {
    /// No row yet, and so many at most.
    pub fn new(alloc: Global, most: usize) -> Rows {
        Rows {
            shown: Vec::new(alloc),
            hops: Vec::new(alloc),
            most,
            jumps: false,
        }
    }

    /// Says that time jumps before the next hop.
    pub fn jump(&mut self) {
        self.jumps = true;
    }

    /// Takes a hop in, with its revolutions. Whether it is drawn: it isn't where it begins behind
    /// the last row that there is room for.
    pub fn take(&mut self, hop: DrawnHop) -> Result<bool, AllocError> {
        let first = hop.first_revolution();
        if self.jumps {
            self.push(first, Above::Jump)?;
            self.jumps = false;
        }
        let parts = hop.parts;
        // a clock that a hop ends at belongs to the next hop
        let last = parts.worked.saturating_sub(1).max(parts.found);
        self.show(first, hop.revolution(last))?;
        let end = hop.revolution(parts.ended.saturating_sub(1));
        self.show(end, end)?;
        if first > self.last() {
            return Ok(false);
        }
        self.hops.push(hop)?;
        Ok(true)
    }

    /// Shows the revolutions from one to another, which aren't before those that are shown.
    fn show(&mut self, first: u128, last: u128) -> Result<(), AllocError> {
        let end = last.min(first.saturating_add(self.most as u128));
        for revolution in first..=end {
            let above = self.above(revolution);
            self.push(revolution, above)?;
        }
        Ok(())
    }

    /// What stands above a revolution that time goes on to.
    fn above(&self, revolution: u128) -> Above {
        let next = match self.shown.last() {
            Some(row) => row.revolution.saturating_add(1),
            None => 0,
        };
        if revolution > next {
            Above::Cards
        } else {
            Above::Nothing
        }
    }

    /// Shows a revolution, where it isn't shown yet and there is room.
    fn push(&mut self, revolution: u128, above: Above) -> Result<(), AllocError> {
        let is_next = match self.shown.last() {
            Some(row) => row.revolution < revolution,
            None => true,
        };
        if is_next && self.shown.len() < self.most {
            self.shown.push(Row { revolution, above })?;
        }
        Ok(())
    }

    /// Whether a hop from this location is drawn.
    pub fn has_hop_of(&self, place: Location) -> bool {
        self.hops
            .iter()
            .any(|hop| hop.visit.place.number() == place.number())
    }

    /// The first revolution that is shown; 0 where there is none.
    pub fn first(&self) -> u128 {
        self.shown.first().map_or(0, |row| row.revolution)
    }

    /// The last revolution that is shown; 0 where there is none.
    pub fn last(&self) -> u128 {
        self.shown.last().map_or(0, |row| row.revolution)
    }

    /// The row in which a hop begins, both counted from 0; `None` where there is no such hop.
    pub fn row_of(&self, hop: usize) -> Option<usize> {
        let revolution = self.hops.get(hop)?.first_revolution();
        let until = self
            .shown
            .iter()
            .filter(|row| row.revolution <= revolution)
            .count();
        Some(until.saturating_sub(1))
    }

    /// How many rows there are more than the page has room for.
    pub fn more_rows(&self) -> usize {
        self.shown.len().saturating_sub(PAGE_ROWS)
    }
}
