//! The marks that don't say inside which other one they stand.

ghost use Rattle.std.specs.Prelude.{◌≡◌, ◌++◌, ◌↔◌, ◌<◌, ◌≤◌, ℕ, List, IsTrue, IfOk, OnOk, map};
ghost use Rattle.std.specs.Prelude.{length};
ghost use Rattle.std.specs.List.{range_with_len};
ghost use Rattle.read_decks.specs.InDeck.{loads_in, start_in};
ghost use Rattle.base_notes.specs.EdgeOf.{edge_of};
ghost use Rattle.flow_graph.specs.Executed.{AreAllNodes};
ghost use Rattle.flow_graph.specs.Flow.{nodes_of, of_flow};
ghost use Rattle.check_findings.specs.FindingOf.{seen};
ghost use Rattle.check_findings.specs.Edges.{marked_edges, marks_of};
ghost use Rattle.check_deck.specs.Findings.{edge_at, edges_at, inside_at, pairs_of};
ghost use Rattle.check_deck.specs.Findings.{IsUnsaid};
ghost use Rattle.check_deck.specs.Those.{AreThose};
ghost use Rattle.check_deck.specs.FindingsOf.{IsInsideIn};
ghost use Rattle.check_deck.specs.KnownInside.{AreKnown};
ghost use Rattle.check_deck.specs.Insides.{HasSeveralWays, IsRound};

use crate::loops::MOST_EDGES;
use crate::nested::is_mark_round;
use crate::nesting::Nesting;
use crate::several::has_several_ways;
use base_notes::{Edge, Edges};
use check_findings::{Finding, marked_edges, marks_of};
use flow_graph::Flow;
use machine_steps::is_inside;
use std::alloc::{AllocError, Global};

/// The first edge of the mark with this index.
fn marked_edge(flow: &Flow<'_>, place: usize) -> Edge
    requires { place < length flow.now.notes.now.marks }
    ensures { edge_of result ≡ edge_at flow.now.notes.now.marks place }
{
    flow.notes().marks()[place].first()
}

/// Whether the loop of the mark with one index stands inside that of the mark with another, and the
/// notes don't say so. These are the notes' marks, and the one doesn't stand inside several ways
/// back of one loop.
fn is_unsaid(
    alloc: Global,
    nesting: &Nesting<'_>,
    marks: &[Edges],
    inner: usize,
    outer: usize,
) -> Result<bool, AllocError>
    requires known { AreKnown nesting.now }
    requires marks { marks.now ≡ marks_of nesting.now.flow.now.notes.now }
    requires inner { inner < length marks.now }
    requires outer { outer < length marks.now }
    requires few { length (marked_edges nesting.now.flow.now.notes.now) ≤ 64 }
    requires one_way { ¬ HasSeveralWays (IsRound (IsInsideIn nesting.now.flow.now)
        (edges_at nesting.now.flow.now.notes.now.marks inner)) marks.now }
    ensures { let flow = nesting.now.flow.now in IfOk result (λ unsaid. IsTrue unsaid
        ↔ IsUnsaid (loads_in flow.deck.now) flow.notes.now (start_in flow.deck.now)
        (nodes_of flow) (inner, outer)) }
{
    if inner == outer {
        return Ok(false);
    }
    if is_inside(nesting.flow.notes().marks(), inner, outer) {
        return Ok(false);
    }
    is_mark_round(alloc, nesting, marks[outer].all(), marks[inner].all())
}

/// Adds those marks inside which the one with this index stands, and doesn't say so, where it
/// doesn't stand inside several ways back of one loop. These are the notes' marks.
fn add_unsaid_one_way(
    found: &mut Vec<Finding>,
    alloc: Global,
    nesting: &Nesting<'_>,
    marks: &[Edges],
    inner: usize,
) -> Result<(), AllocError>
    requires known { AreKnown nesting.now }
    requires marks { marks.now ≡ marks_of nesting.now.flow.now.notes.now }
    requires inner { inner < length marks.now }
    requires few { length (marked_edges nesting.now.flow.now.notes.now) ≤ 64 }
    requires one_way { ¬ HasSeveralWays (IsRound (IsInsideIn nesting.now.flow.now)
        (edges_at nesting.now.flow.now.notes.now.marks inner)) marks.now }
    ensures { let flow = nesting.now.flow.now in OnOk result ((outers : List (ℕ × ℕ))
        × AreThose (IsUnsaid (loads_in flow.deck.now) flow.notes.now (start_in flow.deck.now)
        (nodes_of flow))
        (map (λ outer. (inner, outer)) (range_with_len 0 (length flow.notes.now.marks))) outers
        × (map seen found.new.items ≡ map seen found.old.items
        ++ map (inside_at flow.notes.now.marks) outers)) }
{
    for outer in 0..marks.len() {
        if !is_unsaid(alloc, nesting, marks, inner, outer)? {
            continue;
        }
        found.push(Finding::Inside {
            inner: marked_edge(nesting.flow, inner),
            outer: marked_edge(nesting.flow, outer),
        })?;
    }
    Ok(())
}

/// Adds those marks inside which the one with this index stands, and doesn't say so; none where it
/// stands inside several ways back of one loop. These are the notes' marks.
fn add_unsaid_of(
    found: &mut Vec<Finding>,
    alloc: Global,
    nesting: &Nesting<'_>,
    marks: &[Edges],
    inner: usize,
) -> Result<(), AllocError>
    requires known { AreKnown nesting.now }
    requires marks { marks.now ≡ marks_of nesting.now.flow.now.notes.now }
    requires inner { inner < length marks.now }
    requires few { length (marked_edges nesting.now.flow.now.notes.now) ≤ 64 }
    ensures { let flow = nesting.now.flow.now in OnOk result ((outers : List (ℕ × ℕ))
        × AreThose (IsUnsaid (loads_in flow.deck.now) flow.notes.now (start_in flow.deck.now)
        (nodes_of flow))
        (map (λ outer. (inner, outer)) (range_with_len 0 (length flow.notes.now.marks))) outers
        × (map seen found.new.items ≡ map seen found.old.items
        ++ map (inside_at flow.notes.now.marks) outers)) }
{
    if has_several_ways(alloc, nesting, marks, marks[inner].all())? {
        return Ok(());
    }
    add_unsaid_one_way(found, alloc, nesting, marks, inner)
}

/// The pairs of these marks of which the one stands inside the other, and doesn't say so. They are
/// the notes' marks.
fn unsaid_of(
    alloc: Global,
    nesting: &Nesting<'_>,
    marks: &[Edges],
) -> Result<Vec<Finding>, AllocError>
    requires known { AreKnown nesting.now }
    requires marks { marks.now ≡ marks_of nesting.now.flow.now.notes.now }
    requires few { length (marked_edges nesting.now.flow.now.notes.now) ≤ 64 }
    ensures { let flow = nesting.now.flow.now in IfOk result (λ found. (pairs : List (ℕ × ℕ))
        × AreThose (IsUnsaid (loads_in flow.deck.now) flow.notes.now (start_in flow.deck.now)
        (nodes_of flow)) (pairs_of flow.notes.now.marks) pairs
        × (map seen found.items ≡ map (inside_at flow.notes.now.marks) pairs)) }
{
    let mut found = Vec::new(alloc);
    for inner in 0..marks.len() {
        add_unsaid_of(&mut found, alloc, nesting, marks, inner)?;
    }
    Ok(found)
}

/// The pairs of marks of which the one stands inside the other, and doesn't say so: by the index of
/// the one, and then of the other; none where the marks have more than [`MOST_EDGES`].
pub fn unsaid_marks(alloc: Global, flow: &Flow<'_>) -> Result<Vec<Finding>, AllocError>
    requires { of_flow AreAllNodes flow.now (nodes_of flow.now) }
    ensures { IfOk result (λ found. (pairs : List (ℕ × ℕ))
        × AreThose (IsUnsaid (loads_in flow.now.deck.now) flow.now.notes.now
        (start_in flow.now.deck.now) (nodes_of flow.now)) (pairs_of flow.now.notes.now.marks)
        pairs
        × (map seen found.items ≡ map (inside_at flow.now.notes.now.marks) pairs)) }
{
    let marked = marked_edges(alloc, flow)?;
    if marked.len() > MOST_EDGES {
        return Ok(Vec::new(alloc));
    }
    let nesting = Nesting::of(alloc, flow, &marked, &marked)?;
    let marks = marks_of(alloc, flow)?;
    unsaid_of(alloc, &nesting, &marks)
}
