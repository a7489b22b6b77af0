//! Where the hops of pieces begin.

ghost use Rattle.std.specs.Prelude.{◌≡◌, ◌<◌, ◌++◌, [], List, IfOk, flat_map};
ghost use Rattle.flow_walks.specs.Pieces.{repeated, spelled_at, spelled_behind, spelled_by};
ghost use Rattle.flow_walks.specs.Pieces.{PlacedHop};
ghost use Rattle.print_ceilings.specs.EndsOf.{AreAllEnds, AreEnds};

use base_words::Location;
use flow_walks::Piece;
use std::alloc::{AllocError, Global};

/// The location of the first hop of a piece, and that of the last.
#[derive(Clone, Copy)]
pub struct Ends {
    pub first: Location,
    pub last: Location,
}

/// Those of hops and of others behind them; `None` where there are no hops.
fn joined(ends: Option<Ends>, others: Option<Ends>) -> Option<Ends>
    ensures { (hops behind : List PlacedHop) → AreEnds ends hops → AreEnds others behind
        → AreEnds result (hops ++ behind) }
{
    let Some(one) = ends else {
        return others;
    };
    let Some(other) = others else {
        return ends;
    };
    Some(Ends {
        first: one.first,
        last: other.last,
    })
}

/// Those of the piece with this number; `None` where there is no such piece.
pub fn ends_at(ends: &[Option<Ends>], number: usize) -> Option<Ends>
    ensures { (spells : List (List PlacedHop)) → AreAllEnds ends.now spells
        → AreEnds result (spelled_at spells number) }
{
    match ends.get(number) {
        Some(ends) => *ends,
        None => None,
    }
}

/// Those of pieces in a row.
fn ends_of_row(ends: &[Option<Ends>], names: &[usize]) -> Option<Ends>
    ensures { (spells : List (List PlacedHop)) → AreAllEnds ends.now spells
        → AreEnds result (flat_map (spelled_at spells) names.now) }
{
    let mut all = None;
    for number in names {
        all = joined(all, ends_at(ends, *number));
    }
    all
}

/// Those of a piece, by those of the pieces before it.
fn ends_of(ends: &[Option<Ends>], piece: &Piece) -> Option<Ends>
    ensures { (spells : List (List PlacedHop)) → AreAllEnds ends.now spells
        → AreEnds result (spelled_by spells piece.now) }
{
    match piece {
        Piece::Hop(one) => Some(Ends {
            first: one.location,
            last: one.location,
        }),
        Piece::Row(names) => ends_of_row(ends, names),
        Piece::Rounds(rounds) => ends_at(ends, rounds.piece),
    }
}

/// Those of each of these pieces.
pub fn all_ends(alloc: Global, pieces: &[Piece]) -> Result<Vec<Option<Ends>>, AllocError>
    ensures { IfOk result (λ ends. AreAllEnds ends.items (spelled_behind [] pieces.now)) }
{
    let mut ends = Vec::new(alloc);
    for piece in pieces {
        let next = ends_of(&ends, piece);
        ends.push(next)?;
    }
    Ok(ends)
}
