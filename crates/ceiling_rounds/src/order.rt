//! Whether pieces are numbered in the order in which a walk first comes to their ends.

ghost use Rattle.std.specs.Prelude.{◌≡◌, ◌≤◌, List, IfOk, IfSome, IsTrue, Some, length};
ghost use Rattle.ceiling_rounds.specs.Order.{through_at, through_by, through_row, AreInOrder, Through};
ghost use Rattle.ceiling_rounds.specs.OrderOf.{first_in, AreAllThrough, AreThrough};

use flow_walks::Piece;
use std::alloc::{AllocError, Global};

/// Pieces, and for each how many a walk has come to the end of where it first begins this one.
#[derive(Drop)]
pub struct Order<'a> {
    pieces: &'a [Piece],
    firsts: Vec<usize>,
}

impl<'a> Order<'a> {
    /// What they would be of pieces that are in order, from the last one down, which begins first.
    pub fn of(alloc: Global, pieces: &'a [Piece]) -> Result<Order<'a>, AllocError>
        ensures { IfOk result (λ order. order.pieces.now ≡ pieces.now) }
    {
        let firsts = vec![in alloc; 0; pieces.len()]?;
        let mut order = Order { pieces, firsts };
        for number in (0..pieces.len()).rev() {
            let ended = order.first_of(number);
            order.begin(&pieces[number], ended);
        }
        Ok(order)
    }

    /// Notes where the pieces that one names first begin, where that one begins behind so many.
    fn begin(&mut self, piece: &Piece, ended: usize)
        ensures { self.new.pieces.now ≡ self.old.pieces.now }
    {
        match piece {
            Piece::Hop(_) => {}
            Piece::Row(names) => self.begin_row(names, ended),
            Piece::Rounds(rounds) => self.begin_row(&[rounds.piece], ended),
        }
    }

    /// The same of pieces in a row.
    fn begin_row(&mut self, names: &[usize], ended: usize)
        ensures { self.new.pieces.now ≡ self.old.pieces.now }
    {
        let mut ended = ended;
        for number in names {
            if *number >= ended {
                if let Some(first) = self.firsts.get_mut(*number) {
                    *first = ended;
                }
                ended = number.saturating_add(1);
            }
        }
    }

    /// Behind how many pieces one first begins.
    fn first_of(&self, number: usize) -> usize
        ensures { result ≡ first_in self.now.firsts.items number }
    {
        match self.firsts.get(number) {
            Some(first) => *first,
            None => 0,
        }
    }

    /// Behind how many pieces a walk is that goes through one of the first `limit`, where so many
    /// have come to their ends; `None` where they aren't in order.
    fn at(&self, limit: usize, number: usize, ended: usize) -> Option<usize>
        ensures { IfSome result (λ next. (before : List Through)
            → AreThrough self.now.firsts.items limit before
            → through_at before number ended ≡ Some next) }
    {
        if number < ended {
            return Some(ended);
        }
        if number < limit && self.first_of(number) == ended {
            return Some(number + 1);
        }
        None
    }

    /// The same of pieces in a row.
    fn row(&self, limit: usize, names: &[usize], ended: usize) -> Option<usize>
        ensures { IfSome result (λ next. (before : List Through)
            → AreThrough self.now.firsts.items limit before
            → through_row before names.now ended ≡ Some next) }
    {
        let mut ended = ended;
        for number in names {
            ended = self.at(limit, *number, ended)?;
        }
        Some(ended)
    }

    /// The same of what a piece names.
    fn by(&self, limit: usize, piece: &Piece, ended: usize) -> Option<usize>
        ensures { IfSome result (λ next. (before : List Through)
            → AreThrough self.now.firsts.items limit before
            → through_by before piece.now ended ≡ Some next) }
    {
        match piece {
            Piece::Hop(_) => Some(ended),
            Piece::Row(names) => self.row(limit, names, ended),
            Piece::Rounds(rounds) => self.at(limit, rounds.piece, ended),
        }
    }

    /// Whether the piece with this number is the next that comes to its end, behind those that it
    /// names.
    fn is_next(&self, number: usize, piece: &Piece) -> bool
        ensures { IsTrue result → (before : List Through)
            → AreThrough self.now.firsts.items number before → through_by before piece.now
            (first_in self.now.firsts.items number) ≡ Some number }
    {
        match self.by(number, piece, self.first_of(number)) {
            Some(ended) => ended == number,
            None => false,
        }
    }

    /// Whether each piece is the next.
    fn are_next(&self) -> bool
        ensures { IsTrue result → AreAllThrough self.now.firsts.items self.now.pieces.now }
    {
        for number in 0..self.pieces.len() {
            if !self.is_next(number, &self.pieces[number]) {
                return false;
            }
        }
        true
    }

    /// Whether the pieces are in order.
    pub fn are_in_order(&self) -> bool
        ensures { IsTrue result → AreInOrder self.now.pieces.now }
    {
        let Some(last) = self.pieces.len().checked_sub(1) else {
            return false;
        };
        self.first_of(last) == 0 && self.are_next()
    }
}
