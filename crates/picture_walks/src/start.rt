//! From which piece on a walk in rounds is drawn, where it spends most far from its beginning.

use crate::pieces::{Content, Weighed};
use base_words::Location;
use picture_scene::Tallies;
use std::alloc::{AllocError, Global};

/// The piece from which on a walk is drawn.
#[derive(Drop)]
pub struct Start {
    /// Its number.
    at: usize,
    /// Of each piece whether it is, or has in it, the hop for which the walk is drawn from here.
    has_hop: Vec<bool>,
}

/// The number of the hop that takes most of the walk's time, of those that begin where the walk
/// spends most; and that location.
pub fn heaviest(pieces: &[Weighed<'_>], tallies: &Tallies) -> Option<(usize, Location)> {
    let most = tallies.most_time();
    let mut found: Option<(usize, Location)> = None;
    let mut longest = 0u128;
    for (number, piece) in pieces.iter().enumerate() {
        let Content::Hop(hop) = piece.content else {
            continue;
        };
        let place = hop.visit.place;
        let time = piece.once.saturating_mul(piece.taken);
        if time > longest && tallies.at(place.number()).time == most {
            longest = time;
            found = Some((number, place));
        }
    }
    found
}

/// The first of these pieces below a number that has a hop.
fn first_with(has_hop: &[bool], numbers: &[usize], below: usize) -> Option<usize> {
    for number in numbers {
        if *number < below && has_hop.get(*number) == Some(&true) {
            return Some(*number);
        }
    }
    None
}

/// Of each piece whether it is this hop, or has it in it.
fn with_hop(alloc: Global, pieces: &[Weighed<'_>], hop: usize) -> Result<Vec<bool>, AllocError> {
    let mut has_hop = Vec::new(alloc);
    for (number, piece) in pieces.iter().enumerate() {
        let is_one = match piece.content {
            Content::Hop(_) => number == hop,
            Content::Rounds(rounds) => first_with(&has_hop, rounds.pieces, number).is_some(),
        };
        has_hop.push(is_one)?;
    }
    Ok(has_hop)
}

impl Start {
    /// Where the innermost rounds that have a hop begin; the hop itself, where it stands in none.
    pub fn before(alloc: Global, pieces: &[Weighed<'_>], hop: usize) -> Result<Start, AllocError> {
        let has_hop = with_hop(alloc, pieces, hop)?;
        let (mut at, mut next) = (hop, pieces.len().saturating_sub(1));
        for _ in 0..pieces.len() {
            let Some(Content::Rounds(rounds)) = pieces.get(next).map(|piece| piece.content) else {
                break;
            };
            if rounds.times > 1 {
                at = next;
            }
            let Some(inner) = first_with(&has_hop, rounds.pieces, next) else {
                break;
            };
            next = inner;
        }
        Ok(Start { at, has_hop })
    }

    /// Whether the walk is drawn from a piece on.
    pub fn is_at(&self, number: usize) -> bool {
        self.at == number
    }

    /// Whether a piece has that in it from which on the walk is drawn.
    pub fn is_within(&self, number: usize) -> bool {
        self.has_hop.get(number) == Some(&true)
    }
}
