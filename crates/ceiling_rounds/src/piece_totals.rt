//! What is told of pieces one by one.

ghost use Rattle.std.specs.Prelude.{◌≡◌, ◌+◌, ◌≤◌, ◌^◌, ◌<◌, List, [], IfOk, IfSome, IsTrue};
ghost use Rattle.std.specs.Prelude.{length};
ghost use Rattle.std.specs.Prelude.{map, sum_by};
ghost use Rattle.flow_graph.specs.Walk as walks;
ghost use Rattle.flow_walks.specs.Pieces.{named, spelled_behind};
ghost use Rattle.ceiling_rounds.specs.declared.stretch.Stretch.{Stretch as Come};
ghost use Rattle.ceiling_rounds.specs.InRounds.{AreTold};
ghost use Rattle.ceiling_rounds.specs.Stretch.{AreStretches};

use crate::often::Often;
use crate::stretch::Stretch;
use flow_walks::Piece;
use std::alloc::{AllocError, Global};

/// How many pieces there are at most, with those that they name.
const MOST_NAMED: usize = 1 << 32;

/// How many hops a walk has at most, all but one.
const MOST_HOPS: u128 = 1 << 127;

/// How long each piece takes, and how often each comes.
#[derive(Drop)]
pub struct PieceTotals {
    pub lasting: Vec<u128>,
    pub often: Vec<u128>,
}

/// How long each stretch takes.
fn times_of(alloc: Global, stretches: &[Stretch]) -> Result<Vec<u128>, AllocError>
    ensures { IfOk result (λ times. times.items ≡ map (λ (one : Come). one.time) stretches.now) }
{
    stretches.iter().map(|one| one.time).collect(alloc)
}

/// How many pieces are named by others, each as often as it is; `None` where there is no room for
/// so many.
fn named_by(pieces: &[Piece]) -> Option<usize>
    ensures { IfSome result (λ all. all ≡ sum_by (λ one. length (named one)) pieces.now) }
{
    let mut all = 0usize;
    for piece in pieces {
        all = all.checked_add(piece.names())?;
    }
    Some(all)
}

/// Whether pieces name few others.
fn are_few(pieces: &[Piece]) -> bool
    ensures { IsTrue result
        → length pieces.now + sum_by (λ one. length (named one)) pieces.now ≤ 2 ^ 32 }
{
    let Some(named) = named_by(pieces) else {
        return false;
    };
    match pieces.len().checked_add(named) {
        Some(all) => all <= MOST_NAMED,
        None => false,
    }
}

impl PieceTotals {
    /// What is told of pieces, by what they come to; `None` where there is no room for so much.
    pub fn of(
        alloc: Global,
        pieces: &[Piece],
        stretches: &[Stretch],
    ) -> Result<Option<PieceTotals>, AllocError>
        ensures { IfOk result (λ made. IfSome made (λ told. (g : walks.Setting)
            → AreStretches g (spelled_behind [] pieces.now) stretches.now
            → AreTold g.times pieces.now told.lasting.items told.often.items)) }
    {
        if !are_few(pieces) {
            return Ok(None);
        }
        let Some(often) = Often::of(alloc, pieces)? else {
            return Ok(None);
        };
        if often.hops >= MOST_HOPS {
            return Ok(None);
        }
        Ok(Some(PieceTotals {
            lasting: times_of(alloc, stretches)?,
            often: often.often,
        }))
    }
}
