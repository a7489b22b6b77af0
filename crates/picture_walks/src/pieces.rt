//! The pieces of a walk in rounds: what each takes, and how often it comes.

use base_notes::Times;
use flow_walks::{Piece, Placed, Visit};
use picture_scene::Parts;
use std::alloc::{AllocError, Global};
use std::slice;

/// So many rounds of earlier pieces in a row.
#[derive(Clone, Copy)]
pub struct Rounds<'a> {
    pub times: u16,
    /// The numbers of the pieces.
    pub pieces: &'a [usize],
}

/// A hop, begun at the moment 0 of a walk from its angle.
#[derive(Clone, Copy)]
pub struct PieceHop {
    pub visit: Visit,
    pub parts: Parts,
}

/// What a piece is.
#[derive(Clone, Copy)]
pub enum Content<'a> {
    Hop(PieceHop),
    Rounds(Rounds<'a>),
}

/// A piece, with what it comes to.
#[derive(Clone, Copy)]
pub struct Weighed<'a> {
    pub content: Content<'a>,
    /// The word times that it takes; of rounds those of one.
    pub once: u128,
    /// How often it comes in the whole walk.
    pub taken: u128,
}

impl PieceHop {
    /// The hop of a piece, which takes as long as it can.
    fn of(one: Placed, times: &Times) -> PieceHop {
        let visit = Visit {
            place: one.location,
            instruction: one.hop.instruction,
            way: one.hop.way,
            took: u32::try_from(one.longest(times)).unwrap_or(u32::MAX),
            begun: 0,
        };
        PieceHop {
            visit,
            parts: Parts::of(&visit, one.angle, times),
        }
    }
}

impl<'a> Rounds<'a> {
    /// So many rounds of one piece.
    fn of_one(times: u16, piece: &'a usize) -> Rounds<'a> {
        Rounds {
            times,
            pieces: slice::from_ref(piece),
        }
    }
}

impl<'a> Content<'a> {
    /// What a piece is.
    fn of(piece: &'a Piece, times: &Times) -> Content<'a> {
        match piece {
            Piece::Hop(one) => Content::Hop(PieceHop::of(*one, times)),
            Piece::Row(pieces) => Content::Rounds(Rounds { times: 1, pieces }),
            Piece::Rounds(rounds) => {
                Content::Rounds(Rounds::of_one(rounds.times, &rounds.piece))
            }
        }
    }

    /// How often it is gone through, once it comes.
    fn rounds(self) -> u128 {
        match self {
            Content::Hop(_) => 1,
            Content::Rounds(rounds) => u128::from(rounds.times),
        }
    }

    /// The word times that it takes, of rounds one, by what the earlier pieces take.
    fn once(self, earlier: &[Weighed<'_>]) -> u128 {
        let rounds = match self {
            Content::Hop(hop) => return u128::from(hop.visit.took),
            Content::Rounds(rounds) => rounds,
        };
        let mut time = 0u128;
        for number in rounds.pieces {
            if let Some(piece) = earlier.get(*number) {
                time = time.saturating_add(piece.time());
            }
        }
        time
    }
}

impl Weighed<'_> {
    /// The word times that it takes.
    pub fn time(&self) -> u128 {
        self.once.saturating_mul(self.content.rounds())
    }
}

/// Counts the pieces of these numbers, those below a number, so often more.
fn count(pieces: &mut [Weighed<'_>], numbers: &[usize], below: usize, often: u128) {
    for number in numbers {
        if *number < below {
            if let Some(piece) = pieces.get_mut(*number) {
                piece.taken = piece.taken.saturating_add(often);
            }
        }
    }
}

/// Counts the pieces that one names, by how often that one comes.
fn count_named(pieces: &mut [Weighed<'_>], number: usize) {
    let Some(piece) = pieces.get(number) else {
        return;
    };
    if let Content::Rounds(rounds) = piece.content {
        let often = piece.taken.saturating_mul(u128::from(rounds.times));
        count(pieces, rounds.pieces, number, often);
    }
}

/// Counts how often each piece comes: the last one, which is the whole, once.
fn count_all(pieces: &mut [Weighed<'_>]) {
    if let Some(whole) = pieces.last_mut() {
        whole.taken = 1;
    }
    for number in (0..pieces.len()).rev() {
        count_named(pieces, number);
    }
}

/// The pieces of a walk, with what they come to.
pub fn weigh<'a>(
    alloc: Global,
    pieces: &'a [Piece],
    times: &Times,
) -> Result<Vec<Weighed<'a>>, AllocError> {
    let mut all = Vec::new(alloc);
    for piece in pieces {
        let content = Content::of(piece, times);
        let once = content.once(&all);
        all.push(Weighed {
            content,
            once,
            taken: 0,
        })?;
    }
    count_all(&mut all);
    Ok(all)
}
