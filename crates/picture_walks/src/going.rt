//! The way through the pieces of a walk in rounds, hop by hop: what was gone through is passed over
//! where it comes again, and so is what comes before the piece from which on the walk is drawn.

use crate::pieces::{Content, PieceHop, Rounds, Weighed};
use crate::start::Start;
use picture_scene::{Brace, Braces, DrawnHop, Rows};
use std::alloc::{AllocError, Global};
use std::mem;

/// How many rows are drawn at most.
const MOST_ROWS: usize = 120;

/// How many hops are drawn at most, so that the picture has no more than 1,000,000 bytes.
const MOST_HOPS: usize = 900;

/// How many steps there are at most: more than pieces and what they name.
const MOST_STEPS: usize = 1 << 21;

/// A piece that is gone through.
#[derive(Clone, Copy)]
struct Open<'a> {
    number: usize,
    rounds: Rounds<'a>,
    /// How many of the pieces that it names are behind.
    behind: usize,
    /// How many hops were drawn when it began.
    hops: usize,
    /// Whether it is drawn from its beginning.
    is_begun: bool,
}

/// Where the way through the walk is.
#[derive(Drop)]
pub struct Going<'a> {
    pieces: &'a [Weighed<'a>],
    /// Which of them were gone through.
    gone: Vec<bool>,
    /// Those that are being gone through, each in the one before it.
    open: Vec<Open<'a>>,
    /// The moment: word times since the first revolution began.
    moment: u128,
    /// From where on the walk is drawn, where the way hasn't come there yet.
    start: Option<Start>,
    rows: Rows,
    braces: Braces,
}

impl<'a> Going<'a> {
    /// At the beginning of a walk, at an angle of the drum.
    fn new(
        alloc: Global,
        pieces: &'a [Weighed<'a>],
        angle: u64,
        start: Option<Start>,
    ) -> Result<Going<'a>, AllocError> {
        Ok(Going {
            pieces,
            gone: vec![in alloc; false; pieces.len()]?,
            open: Vec::new(alloc),
            moment: u128::from(angle),
            start,
            rows: Rows::new(alloc, MOST_ROWS),
            braces: Braces::new(alloc),
        })
    }

    /// The rows and braces of a walk that begins at an angle of the drum, whose last piece is the
    /// whole; from its beginning, or from another piece on.
    pub fn all(
        alloc: Global,
        pieces: &'a [Weighed<'a>],
        angle: u64,
        start: Option<Start>,
    ) -> Result<(Rows, Braces), AllocError> {
        let mut going = Going::new(alloc, pieces, angle, start)?;
        let mut has_room = going.enter(pieces.len().saturating_sub(1))?;
        for _ in 0..MOST_STEPS {
            if !has_room || going.open.is_empty() {
                break;
            }
            has_room = going.step()?;
        }
        going.finish()
    }

    /// Goes on by a piece. Whether there is room for more.
    fn step(&mut self) -> Result<bool, AllocError> {
        let Some(mut open) = self.open.pop() else {
            return Ok(false);
        };
        let pieces = open.rounds.pieces;
        let Some(next) = pieces.get(open.behind) else {
            self.end(open)?;
            return Ok(true);
        };
        open.behind = open.behind.saturating_add(1);
        self.open.push(open)?;
        if *next < open.number {
            self.enter(*next)
        } else {
            Ok(true)
        }
    }

    /// Goes on by a hop, or goes into a piece; one that was gone through is passed over. Whether
    /// there is room for more.
    fn enter(&mut self, number: usize) -> Result<bool, AllocError> {
        let Some(piece) = self.pieces.get(number) else {
            return Ok(true);
        };
        if self.is_before_start(number) {
            self.pass(piece.time());
            return Ok(true);
        }
        let rounds = match piece.content {
            Content::Hop(hop) => return self.draw(hop),
            Content::Rounds(rounds) => rounds,
        };
        if rounds.times == 0 || self.is_gone(number) {
            self.pass(piece.time());
            return Ok(true);
        }
        self.open.push(Open {
            number,
            rounds,
            behind: 0,
            hops: self.rows.hops.len(),
            is_begun: self.start.is_none(),
        })?;
        Ok(true)
    }

    /// Whether the walk is drawn from a piece on that the way hasn't come to yet, and that isn't in
    /// this one. At that piece the way has come to it.
    fn is_before_start(&mut self, number: usize) -> bool {
        match self.start.take() {
            None => false,
            Some(start) => {
                if start.is_at(number) {
                    return false;
                }
                let is_before = !start.is_within(number);
                self.start = Some(start);
                is_before
            }
        }
    }

    /// Whether a piece was gone through before; from now on it was.
    fn is_gone(&mut self, number: usize) -> bool {
        match self.gone.get_mut(number) {
            Some(gone) => mem::replace(gone, true),
            None => true,
        }
    }

    /// Draws a hop. Whether there is room for more.
    fn draw(&mut self, hop: PieceHop) -> Result<bool, AllocError> {
        if self.rows.hops.len() >= MOST_HOPS {
            return Ok(false);
        }
        let has_room = self.rows.take(DrawnHop {
            visit: hop.visit,
            parts: hop.parts,
            from: self.moment / 50,
        })?;
        let time = u128::from(hop.visit.took);
        self.moment = self.moment.saturating_add(time);
        Ok(has_room)
    }

    /// Passes time over.
    fn pass(&mut self, time: u128) {
        if time > 0 {
            self.moment = self.moment.saturating_add(time);
            self.rows.jump();
        }
    }

    /// Ends a piece: its other rounds are passed over.
    fn end(&mut self, open: Open<'_>) -> Result<(), AllocError> {
        self.brace(open, true)?;
        let others = open.rounds.times.saturating_sub(1);
        if others > 0 {
            let once = self.pieces.get(open.number).map_or(0, |piece| piece.once);
            self.pass(once.saturating_mul(u128::from(others)));
        }
        Ok(())
    }

    /// Lays a brace beside what was drawn of several rounds.
    fn brace(&mut self, open: Open<'_>, is_whole: bool) -> Result<(), AllocError> {
        if open.rounds.times <= 1 {
            return Ok(());
        }
        let Some(first) = self.rows.row_of(open.hops) else {
            return Ok(());
        };
        self.braces.add(Brace {
            times: open.rounds.times,
            first,
            last: self.rows.shown.len().saturating_sub(1),
            is_begun: open.is_begun,
            is_whole,
        })
    }

    /// The rows, with the braces; those too of what isn't gone through to its end.
    fn finish(mut self) -> Result<(Rows, Braces), AllocError> {
        for _ in 0..self.open.len() {
            if let Some(open) = self.open.pop() {
                self.brace(open, false)?;
            }
        }
        let Going { rows, braces, .. } = self;
        Ok((rows, braces))
    }
}
