//! Whether the loop of one edge stands inside that of another one: how many loops stand round it,
//! and which mark's is the last.

ghost use Rattle.std.specs.Prelude.{◌↔◌, IsTrue, IfOk, map};
ghost use Rattle.base_notes.specs.EdgeOf.{edge_of};
ghost use Rattle.check_deck.specs.FindingsOf.{IsInsideIn};
ghost use Rattle.check_deck.specs.KnownInside.{AreKnown};
ghost use Rattle.check_deck.specs.Insides.{AreSoMany, IsLastNumber, IsMarkRound, IsRound};

use crate::nesting::Nesting;
use base_notes::{Edge, Edges};
use std::alloc::{AllocError, Global};

/// Inside how many loops of some edges that of another one stands.
pub fn loops_round(
    alloc: Global,
    nesting: &Nesting<'_>,
    edges: &[Edge],
    inner: Edge,
) -> Result<usize, AllocError>
    requires { AreKnown nesting.now }
    ensures { IfOk result (λ many. AreSoMany
        (λ outer. IsInsideIn nesting.now.flow.now outer (edge_of inner))
        (map edge_of edges.now) many) }
{
    let mut many = 0;
    for outer in edges {
        if !nesting.stands_inside(alloc, *outer, inner)? {
            continue;
        }
        many += 1;
    }
    Ok(many)
}

/// Whether the loop of one of a mark's edges stands inside that of another edge.
pub fn is_round(
    alloc: Global,
    nesting: &Nesting<'_>,
    outer: Edge,
    mark: &[Edge],
) -> Result<bool, AllocError>
    requires { AreKnown nesting.now }
    ensures { IfOk result (λ round. IsTrue round
        ↔ IsRound (IsInsideIn nesting.now.flow.now) (map edge_of mark.now) (edge_of outer)) }
{
    for inner in mark {
        if nesting.stands_inside(alloc, outer, *inner)? {
            return Ok(true);
        }
    }
    Ok(false)
}

/// Whether the loop of one of a mark's edges stands inside that of one of another mark's.
pub fn is_mark_round(
    alloc: Global,
    nesting: &Nesting<'_>,
    edges: &[Edge],
    mark: &[Edge],
) -> Result<bool, AllocError>
    requires { AreKnown nesting.now }
    ensures { IfOk result (λ round. IsTrue round ↔ IsMarkRound
        (IsInsideIn nesting.now.flow.now) (map edge_of mark.now) (map edge_of edges.now)) }
{
    for outer in edges {
        if is_round(alloc, nesting, *outer, mark)? {
            return Ok(true);
        }
    }
    Ok(false)
}

/// The number, from 1, of the last of some marks inside whose loop that of another one stands.
pub fn last_round(
    alloc: Global,
    nesting: &Nesting<'_>,
    marks: &[Edges],
    mark: &[Edge],
) -> Result<Option<usize>, AllocError>
    requires { AreKnown nesting.now }
    ensures { IfOk result (λ number. IsLastNumber
        (IsMarkRound (IsInsideIn nesting.now.flow.now) (map edge_of mark.now)) marks.now number) }
{
    let mut number = None;
    for (place, outer) in marks.iter().enumerate() {
        if !is_mark_round(alloc, nesting, outer.all(), mark)? {
            continue;
        }
        number = Some(place + 1);
    }
    Ok(number)
}
