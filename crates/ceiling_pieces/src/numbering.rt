//! Pieces, numbered anew in the order in which a walk first comes to their ends.

use flow_walks::{Piece, Rounds};
use std::alloc::{AllocError, Global};

/// A piece that a walk is inside of.
#[derive(Clone, Copy)]
struct Open {
    piece: usize,
    /// How many of those that it names were gone through.
    named: usize,
}

/// Pieces while they are gone through as a walk does.
#[derive(Drop)]
struct Numbering<'a> {
    alloc: Global,
    old: &'a [Piece],
    /// The new number of each that has come to its end.
    numbers: Vec<Option<usize>>,
    new: Vec<Piece>,
    /// Those that the walk is inside of, the outermost first.
    open: Vec<Open>,
}

/// The pieces that one spells out with those that it names, numbered in the order in which a walk
/// first comes to their ends.
pub fn in_order(alloc: Global, pieces: &[Piece], whole: usize) -> Result<Vec<Piece>, AllocError> {
    let mut numbering = Numbering {
        alloc,
        old: pieces,
        numbers: vec![in alloc; None; pieces.len()]?,
        new: Vec::new(alloc),
        open: Vec::new(alloc),
    };
    numbering.enter(whole)?;
    for _ in 0..steps(pieces) {
        if !numbering.step()? {
            break;
        }
    }
    Ok(numbering.new)
}

/// How many steps there are at most: into each piece, past each that is named, and out of it.
fn steps(pieces: &[Piece]) -> usize {
    let mut all = 0usize;
    for piece in pieces {
        all = all.saturating_add(piece.names()).saturating_add(2);
    }
    all
}

impl Numbering<'_> {
    /// Goes into a piece.
    fn enter(&mut self, piece: usize) -> Result<(), AllocError> {
        self.open.push(Open { piece, named: 0 })?;
        Ok(())
    }

    /// The new number of a piece; that of none, where it has none.
    fn number_of(&self, piece: usize) -> usize {
        match self.numbers.get(piece) {
            Some(Some(number)) => *number,
            _ => usize::MAX,
        }
    }

    /// Goes on by a step; `false` where there is none.
    fn step(&mut self) -> Result<bool, AllocError> {
        let Some(inside) = self.open.pop() else {
            return Ok(false);
        };
        let Some(piece) = self.old.get(inside.piece) else {
            return Ok(false);
        };
        let Some(next) = piece.name(inside.named) else {
            self.close(inside.piece, piece)?;
            return Ok(true);
        };
        self.open.push(Open {
            piece: inside.piece,
            named: inside.named.saturating_add(1),
        })?;
        if next < inside.piece && self.number_of(next) == usize::MAX {
            self.enter(next)?;
        }
        Ok(true)
    }

    /// Comes to the end of a piece.
    fn close(&mut self, number: usize, piece: &Piece) -> Result<(), AllocError> {
        let renamed = match piece {
            Piece::Hop(one) => Piece::Hop(*one),
            Piece::Row(names) => Piece::Row(self.renamed(names)?),
            Piece::Rounds(rounds) => Piece::Rounds(Rounds {
                times: rounds.times,
                piece: self.number_of(rounds.piece),
            }),
        };
        if let Some(known) = self.numbers.get_mut(number) {
            *known = Some(self.new.len());
        }
        self.new.push(renamed)?;
        Ok(())
    }

    /// The new numbers of pieces.
    fn renamed(&self, names: &[usize]) -> Result<Vec<usize>, AllocError> {
        names
            .iter()
            .map(|name| self.number_of(*name))
            .collect(self.alloc)
    }
}
