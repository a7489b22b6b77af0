//! Rounds of which one is shown: braces beside their rows.

use std::alloc::{AllocError, Global};

/// How many braces are beside one another at most.
const MOST_COLUMNS: usize = 24;

/// How many braces are drawn at most.
const MOST_BRACES: usize = 240;

/// Rounds of which one is drawn.
#[derive(Clone, Copy)]
pub struct Brace {
    /// How many rounds there are.
    pub times: u16,
    /// The first of its rows, from 0.
    pub first: usize,
    /// The last one.
    pub last: usize,
    /// Whether the round is drawn from its beginning.
    pub is_begun: bool,
    /// Whether it is drawn to its end.
    pub is_whole: bool,
}

/// A brace with its column, from 0.
#[derive(Clone, Copy)]
pub struct InColumn {
    pub brace: Brace,
    pub column: usize,
}

/// The braces.
#[derive(Drop)]
pub struct Braces {
    all: Vec<InColumn>,
}

impl Braces {
    /// No brace yet.
    pub fn new(alloc: Global) -> Braces {
        Braces {
            all: Vec::new(alloc),
        }
    }

    /// Adds a brace, behind those that are beside its rows; not at all where there is no room.
    pub fn add(&mut self, brace: Brace) -> Result<(), AllocError> {
        let mut column = 0usize;
        for other in self.all.iter() {
            if other.brace.is_beside(brace) {
                column = column.max(other.column.saturating_add(1));
            }
        }
        if column < MOST_COLUMNS && self.all.len() < MOST_BRACES {
            self.all.push(InColumn { brace, column })?;
        }
        Ok(())
    }

    /// How many columns there are.
    pub fn columns(&self) -> usize {
        let mut columns = 0usize;
        for one in self.all.iter() {
            columns = columns.max(one.column.saturating_add(1));
        }
        columns
    }

    /// Each with its column.
    pub fn all(&self) -> &[InColumn] {
        &self.all
    }
}

impl Brace {
    /// Whether it has a row that another has too.
    fn is_beside(self, other: Brace) -> bool {
        self.first <= other.last && other.first <= self.last
    }
}
