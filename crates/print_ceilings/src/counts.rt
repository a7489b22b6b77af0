//! How often pieces are named.

ghost use Rattle.std.specs.Prelude.{◌≡◌, IfOk, length};
ghost use Rattle.flow_walks.specs.Pieces.{named};
ghost use Rattle.print_ceilings.specs.CountsOf.{AreCounted, HasCounted};

use flow_walks::Piece;
use std::alloc::{AllocError, Global};

/// Counts each of these names once more.
fn count_row(counts: &mut [usize], names: &[usize])
    ensures { HasCounted counts.old counts.new names.now }
{
    for number in names {
        if *number < counts.len() {
            counts[*number] = counts[*number].saturating_add(1);
        }
    }
}

/// Counts those that a piece names.
fn count(counts: &mut [usize], piece: &Piece)
    ensures { HasCounted counts.old counts.new (named piece.now) }
{
    match piece {
        Piece::Hop(_) => {}
        Piece::Row(names) => count_row(counts, names),
        Piece::Rounds(rounds) => count_row(counts, &[rounds.piece]),
    }
}

/// How often each of these pieces is named.
pub fn counts_of(alloc: Global, pieces: &[Piece]) -> Result<Vec<usize>, AllocError>
    ensures { IfOk result (λ counts. AreCounted counts.items pieces.now) }
{
    let mut counts = vec![in alloc; 0usize; pieces.len()]?;
    for piece in pieces {
        count(&mut counts, piece);
    }
    Ok(counts)
}
