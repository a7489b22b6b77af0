//! What the hops of each kind take in all, and what all hops wait.

ghost use Rattle.std.specs.Prelude.{◌≡◌, ◌^◌, ◌<◌, IfOk, Some, length, slice_get};
ghost use Rattle.base_notes.specs.Entries.{entry_in};
ghost use Rattle.flow_walks.specs.declared.piece.Piece.TheVariants as pieces;
ghost use Rattle.flow_walks.specs.Pieces.{seen_placed};
ghost use Rattle.ceiling_rounds.specs.InRounds.{often_of, pieces_of, total_of};
ghost use Rattle.print_ceilings.specs.PieceIndexOf.{IsWalkWith};
ghost use Rattle.print_ceilings.specs.KindRows.{AreRows};
ghost use Rattle.print_ceilings.specs.RoundsWaitsOf.{hop_in, kind_of, waited_over, waits_cards};
ghost use Rattle.print_ceilings.specs.RoundsWaitsOf.{waits_data, waits_instruction, IsOfPiece};

use super::alone::alone;
use super::kind_row::KindRow;
use base_notes::Times;
use ceiling_rounds::InRounds;
use flow_walks::{Piece, Placed};
use indexmap::IndexMap;
use print_hops::{Kind, Spent, Waited};
use std::alloc::{AllocError, Global};

/// The hop that a piece is, if it is one.
fn hop_in(piece: &Piece) -> Option<Placed>
    ensures { result ≡ hop_in piece.now }
{
    match piece {
        Piece::Hop(one) => Some(*one),
        Piece::Row(_) | Piece::Rounds(_) => None,
    }
}

/// The kind of a hop.
fn kind_of(one: Placed) -> Kind
    ensures { result ≡ kind_of one }
{
    Kind {
        place: one.location,
        instruction: one.hop.instruction,
        way: one.hop.way,
    }
}

/// The row of the piece with this number, which is a hop: what it takes, as often as it comes.
fn row_of_piece(walk: &InRounds, number: usize, one: Placed, times: &Times) -> KindRow
    requires right { IsWalkWith times.now walk.now }
    requires early { total_of walk.now < 2 ^ 127 }
    requires here { slice_get (pieces_of walk.now) number ≡ Some (pieces.Hop one) }
    ensures { IsOfPiece (entry_in times.now) (often_of walk.now) number one result }
{
    let took = walk.lasting(number) as u64;
    KindRow::of(number, one, took, walk.often(number), times)
}

/// What the hops of each kind take in all, in the order of the pieces.
pub fn by_kind(
    alloc: Global,
    walk: &InRounds,
    times: &Times,
) -> Result<IndexMap<Kind, KindRow>, AllocError>
    requires right { IsWalkWith times.now walk.now }
    requires early { total_of walk.now < 2 ^ 127 }
    ensures { IfOk result (AreRows (entry_in times.now) (pieces_of walk.now) (often_of walk.now)
        (length (pieces_of walk.now))) }
{
    let mut rows: IndexMap<Kind, KindRow> = IndexMap::new(alloc);
    for (number, piece) in walk.pieces().iter().enumerate() {
        let Some(one) = hop_in(piece) else {
            continue;
        };
        let kind = kind_of(one);
        let alone = row_of_piece(walk, number, one, times);
        let row = match rows.get(&kind) {
            Some(before) => before.plus(&alone),
            None => alone,
        };
        rows.insert(kind, row)?;
    }
    Ok(rows)
}

/// What the piece with this number takes, which is a hop.
fn spent_by(walk: &InRounds, number: usize, one: Placed, times: &Times) -> Spent
    requires right { IsWalkWith times.now walk.now }
    requires here { slice_get (pieces_of walk.now) number ≡ Some (pieces.Hop one) }
    ensures instruction { result.instruction
        ≡ waits_instruction (entry_in times.now) (seen_placed one) }
    ensures operand { result.operand ≡ waits_data (entry_in times.now) (seen_placed one) }
    ensures cards { result.cards ≡ waits_cards (entry_in times.now) (seen_placed one) }
{
    let took = walk.lasting(number) as u64;
    Spent::of(&alone(one, took), times, one.angle as u8)
}

/// What all hops of a walk wait.
pub fn waited(walk: &InRounds, times: &Times) -> Waited
    requires right { IsWalkWith times.now walk.now }
    requires early { total_of walk.now < 2 ^ 127 }
    ensures { result ≡ waited_over (entry_in times.now) (pieces_of walk.now) (often_of walk.now) }
{
    let mut waited = Waited::none();
    for (number, piece) in walk.pieces().iter().enumerate() {
        let Some(one) = hop_in(piece) else {
            continue;
        };
        let spent = spent_by(walk, number, one, times);
        waited = waited.with(&spent, walk.often(number));
    }
    waited
}
