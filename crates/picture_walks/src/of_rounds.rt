//! What is drawn of a walk in rounds, beside a ceiling.

ghost use Rattle.std.specs.Prelude.{◌≡◌, IfOk};
ghost use Rattle.ceiling_rounds.specs.InRounds.{total_of};
ghost use Rattle.picture_scene.specs.declared.walk.Kind.TheVariants as kinds;

use crate::going::Going;
use crate::pieces::{Content, Weighed, weigh};
use crate::start::{Start, heaviest};
use base_notes::{Notes, Times};
use ceiling_rounds::InRounds;
use picture_scene::{
    Braces, Edge, Edges, Extent, Kind, Rows, Scene, Shares, TakenEdge, Tallies, Walk,
};
use read_decks::Deck;
use std::alloc::{AllocError, Global};

/// The edges of the hops of a walk.
fn edges_of(alloc: Global, pieces: &[Weighed<'_>]) -> Result<Edges, AllocError> {
    let mut all = Vec::new(alloc);
    for piece in pieces {
        if let (Content::Hop(hop), true) = (piece.content, piece.taken > 0) {
            if let Some(edge) = Edge::of(&hop.visit) {
                let taken = piece.taken;
                all.push(TakenEdge { edge, taken })?;
            }
        }
    }
    Edges::together(alloc, &all)
}

/// Counts the hops of a walk.
fn count(tallies: &mut Tallies, pieces: &[Weighed<'_>]) {
    for piece in pieces {
        if let (Content::Hop(hop), true) = (piece.content, piece.taken > 0) {
            tallies.count(&hop.visit, piece.taken);
        }
    }
}

/// How much of a walk these rows are, which begin with its first.
fn extent_of(walk: Walk, rows: &Rows) -> Extent {
    let mut time = 0u128;
    for hop in rows.hops.iter() {
        time = time.saturating_add(u128::from(hop.visit.took));
    }
    if time < walk.time {
        Extent::Some(rows.shown.len())
    } else {
        Extent::All
    }
}

/// What is drawn of a walk from its beginning; or, where it comes later than that to the location
/// at which it spends most, from the rounds on in which it does so.
fn shown_of(
    alloc: Global,
    walk: Walk,
    pieces: &[Weighed<'_>],
    tallies: &Tallies,
) -> Result<(Rows, Braces, Extent), AllocError> {
    let (rows, braces) = Going::all(alloc, pieces, walk.angle, None)?;
    if let Some((hop, place)) = heaviest(pieces, tallies) {
        if !rows.has_hop_of(place) {
            let start = Start::before(alloc, pieces, hop)?;
            let (rows, braces) = Going::all(alloc, pieces, walk.angle, Some(start))?;
            let extent = Extent::From(rows.first().saturating_add(1), rows.shown.len());
            return Ok((rows, braces, extent));
        }
    }
    let extent = extent_of(walk, &rows);
    Ok((rows, braces, extent))
}

/// What is drawn of a walk in rounds of a deck, a timing table and notes, with its shares.
pub fn of_rounds(
    alloc: Global,
    in_rounds: &InRounds,
    ceiling: u128,
    shares: Shares,
    deck: &Deck,
    times: &Times,
    notes: &Notes,
) -> Result<Scene, AllocError>
    ensures kind { IfOk result (λ scene. scene.walk.kind ≡ kinds.InRounds ceiling) }
    ensures time { IfOk result (λ scene. scene.walk.time ≡ total_of in_rounds.now) }
    ensures shares { IfOk result (λ scene. scene.shares ≡ shares) }
{
    let walk = Walk {
        kind: Kind::InRounds(ceiling),
        angle: in_rounds.angle(),
        time: in_rounds.total(),
    };
    let pieces = weigh(alloc, in_rounds.pieces(), times)?;
    let mut tallies = Tallies::new(alloc)?;
    count(&mut tallies, &pieces);
    tallies.note_flow(alloc, deck, notes)?;
    let (rows, braces, extent) = shown_of(alloc, walk, &pieces, &tallies)?;
    Ok(Scene {
        walk,
        tallies,
        edges: edges_of(alloc, &pieces)?,
        shares,
        rows,
        extent,
        braces,
    })
}
