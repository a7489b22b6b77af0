//! The loops that lack a mark, in the order in which they are listed: those inside the fewest of
//! the others first, each with the mark that a mark on its edge is to stand inside of.

ghost use Rattle.std.specs.Prelude.{◌≡◌, ◌++◌, ◌+◌, ◌<◌, ◌↔◌, [], ℕ, List, map, All, IfOk};
ghost use Rattle.std.specs.Prelude.{IsPermutation, IsTrue};
ghost use Rattle.base_notes.specs.EdgeOf.{edge_of};
ghost use Rattle.flow_graph.specs.Executed.{AreAllNodes};
ghost use Rattle.flow_graph.specs.Flow.{executed_in, nodes_of, of_flow, AreFound};
ghost use Rattle.flow_loops.specs.Loops.{AreClosing};
ghost use Rattle.check_findings.specs.Finding.{closes};
ghost use Rattle.check_findings.specs.FindingOf.{seen};
ghost use Rattle.check_findings.specs.declared.within.Within.TheVariants as within;
ghost use Rattle.check_findings.specs.Edges as of_marks;
ghost use Rattle.check_deck.specs.FindingsOf.{IsInsideIn};
ghost use Rattle.check_deck.specs.KnownInside.{AreKnown};
ghost use Rattle.check_deck.specs.Insides as said;
ghost use Rattle.check_deck.specs.Insides.{AreLoops, AreFewestFirst, AreSoMany, AreToldInside};
ghost use Rattle.check_deck.specs.Insides.{AreToldApart, IsTold, IsToldBehind, IsWithin};

use crate::nested::{last_round, loops_round};
use crate::nesting::Nesting;
use crate::several::has_several_ways;
use crate::sharing::{add_new_mark, all_marks, begins, mark_on, shared_heads};
use base_notes::{Edge, Edges};
use base_words::Location;
use check_findings::{Finding, Within, marked_edges, marks_of};
use flow_graph::Flow;
use flow_loops::closing_edges;
use std::alloc::{AllocError, Global};

/// How many edges may be compared, each with each other one: as many as marks of notes can have if
/// each has one.
pub const MOST_EDGES: usize = 64;

/// An edge, with inside how many loops its own stands.
#[derive(Clone, Copy)]
struct Counted {
    edge: Edge,
    many: usize,
}

/// Edges, each with inside how many of their loops its own stands.
fn with_counts(
    alloc: Global,
    nesting: &Nesting<'_>,
    edges: &[Edge],
) -> Result<Vec<Counted>, AllocError>
    requires { AreKnown nesting.now }
    ensures same { IfOk result (λ counted. map (λ one. edge_of one.edge) counted.items
        ≡ map edge_of edges.now) }
    ensures counts { IfOk result (λ counted. All
        (λ one. AreSoMany (λ outer. IsInsideIn nesting.now.flow.now outer (edge_of one.edge))
        (map edge_of edges.now) one.many) counted.items) }
{
    let mut counted = Vec::new(alloc);
    for edge in edges {
        let many = loops_round(alloc, nesting, edges, *edge)?;
        counted.push(Counted { edge: *edge, many })?;
    }
    Ok(counted)
}

/// The edges of these, in order.
fn edges_of(alloc: Global, counted: &[Counted]) -> Result<Vec<Edge>, AllocError>
    ensures { IfOk result (λ edges. edges.items ≡ map (λ one. one.edge) counted.now) }
{
    counted.iter().map(|one| one.edge).collect(alloc)
}

/// Edges in the order in which they are listed: those first whose loop stands inside the fewest of
/// their loops.
fn fewest_first(
    alloc: Global,
    nesting: &Nesting<'_>,
    edges: &[Edge],
) -> Result<Vec<Edge>, AllocError>
    requires { AreKnown nesting.now }
    ensures same { IfOk result (λ sorted. IsPermutation (map edge_of edges.now)
        (map edge_of sorted.items)) }
    ensures sorted { IfOk result (λ sorted. AreFewestFirst (IsInsideIn nesting.now.flow.now)
        (map edge_of sorted.items)) }
{
    let mut counted = with_counts(alloc, nesting, edges)?;
    counted.sort_by_key(|one| one.many)?;
    edges_of(alloc, &counted)
}

/// Which mark a mark on these edges is to stand inside of: of all marks then, and of those before
/// it.
fn within_of(
    alloc: Global,
    nesting: &Nesting<'_>,
    all: &[Edges],
    before: &[Edges],
    mark: &[Edge],
) -> Result<Within, AllocError>
    requires { AreKnown nesting.now }
    ensures { IfOk result (IsWithin (IsInsideIn nesting.now.flow.now) all.now before.now
        (map edge_of mark.now)) }
{
    if has_several_ways(alloc, nesting, all, mark)? {
        return Ok(Within::SeveralWays);
    }
    match last_round(alloc, nesting, before, mark)? {
        Some(number) => Ok(Within::Mark(number)),
        None => Ok(Within::Run),
    }
}

/// Which mark the mark of an edge is to stand inside of, if the edge is its first; else that it
/// shares the mark.
fn within_or_shared(
    alloc: Global,
    nesting: &Nesting<'_>,
    all: &[Edges],
    before: &[Edges],
    mark: &[Edge],
    edge: Edge,
) -> Result<Within, AllocError>
    requires { AreKnown nesting.now }
    ensures { IfOk result (IsTold (IsInsideIn nesting.now.flow.now) all.now before.now
        (map edge_of mark.now) (edge_of edge)) }
{
    if !begins(mark, edge) {
        return Ok(Within::Shared);
    }
    within_of(alloc, nesting, all, before, mark)
}

/// The loops of these edges, each with the mark that a mark on it is to stand inside of. At these
/// locations edges share a mark.
fn loops_within(
    alloc: Global,
    nesting: &Nesting<'_>,
    shared: &[Location],
    edges: &[Edge],
) -> Result<Vec<Finding>, AllocError>
    requires { AreKnown nesting.now }
    ensures { IfOk result (λ loops. AreToldInside (IsToldBehind (IsInsideIn nesting.now.flow.now)
        (of_marks.marks_of nesting.now.flow.now.notes.now) (map (λ head. head.number) shared.now)
        (map edge_of edges.now)) [] (map edge_of edges.now) (map seen loops.items)) }
{
    let all = all_marks(alloc, nesting.flow, shared, edges)?;
    let mut before = marks_of(alloc, nesting.flow)?;
    let mut loops = Vec::new(alloc);
    for edge in edges {
        let mark = mark_on(alloc, shared, edges, *edge)?;
        let within = within_or_shared(alloc, nesting, &all, &before, mark.all(), *edge)?;
        loops.push(Finding::Loop {
            edge: *edge,
            within,
        })?;
        add_new_mark(&mut before, alloc, shared, edges, *edge)?;
    }
    Ok(loops)
}

/// The same, with the locations at which edges share a mark found first; these are the edges of the
/// notes' marks.
fn loops_sharing_marks(
    alloc: Global,
    nesting: &Nesting<'_>,
    marked: &[Edge],
    edges: &[Edge],
) -> Result<Vec<Finding>, AllocError>
    requires known { AreKnown nesting.now }
    requires marked { map edge_of marked.now
        ≡ of_marks.marked_edges nesting.now.flow.now.notes.now }
    ensures { IfOk result (λ loops. AreToldApart (IsInsideIn nesting.now.flow.now)
        nesting.now.flow.now.notes.now (map edge_of edges.now) (map seen loops.items)) }
{
    let mut inners = marked.to_vec(alloc)?;
    inners.extend_from_slice(edges)?;
    let shared = shared_heads(alloc, nesting, &inners, edges)?;
    loops_within(alloc, nesting, &shared, edges)
}

/// The loops of these edges, none of which is said to stand inside a mark.
fn loops_alone(alloc: Global, edges: &[Edge]) -> Result<Vec<Finding>, AllocError>
    ensures { IfOk result (λ loops. map seen loops.items
        ≡ map (λ edge. closes (edge_of edge) within.Run) edges.now) }
{
    let mut loops = Vec::new(alloc);
    for edge in edges {
        loops.push(Finding::Loop {
            edge: *edge,
            within: Within::Run,
        })?;
    }
    Ok(loops)
}

/// Whether the edges of marks and further ones are more than [`MOST_EDGES`].
fn are_many(marked: usize, edges: usize) -> bool
    ensures { IsTrue result ↔ (64 < marked + edges) }
{
    marked > MOST_EDGES || edges > MOST_EDGES - marked
}

/// The loops of these edges, in the order in which they are listed, each with the mark that a mark
/// on it is to stand inside of. The marked ones are those of the notes' marks.
fn loops_in_order(
    alloc: Global,
    flow: &Flow<'_>,
    marked: &[Edge],
    edges: &[Edge],
) -> Result<Vec<Finding>, AllocError>
    requires nodes { of_flow AreAllNodes flow.now (nodes_of flow.now) }
    requires marked { map edge_of marked.now ≡ of_marks.marked_edges flow.now.notes.now }
    ensures { IfOk result (λ loops. (sorted : List (ℕ × ℕ))
        × IsPermutation (map edge_of edges.now) sorted
        × AreFewestFirst (IsInsideIn flow.now) sorted
        × AreToldApart (IsInsideIn flow.now) flow.now.notes.now sorted (map seen loops.items)) }
{
    let mut all = marked.to_vec(alloc)?;
    all.extend_from_slice(edges)?;
    let nesting = Nesting::of(alloc, flow, &all, edges)?;
    let sorted = fewest_first(alloc, &nesting, edges)?;
    loops_sharing_marks(alloc, &nesting, marked, &sorted)
}

/// The loops that lack a mark, in the order in which they are listed. Where they and the marks that
/// there are have more than [`MOST_EDGES`], none is said to stand inside another one. It takes as
/// long as [`closing_edges`] and discovery, and goes through all links besides, at most some
/// thousand times as often as there are nodes at the head of a loop.
pub fn unmarked_loops(alloc: Global, flow: &Flow<'_>) -> Result<Vec<Finding>, AllocError>
    requires nodes { of_flow AreAllNodes flow.now (nodes_of flow.now) }
    requires found { of_flow AreFound flow.now (executed_in flow.now) }
    ensures { IfOk result (λ loops. (edges : List (ℕ × ℕ)) × of_flow AreClosing flow.now edges
        × of_flow AreLoops flow.now (nodes_of flow.now) edges (map seen loops.items)) }
{
    let edges = closing_edges(alloc, flow)?;
    let marked = marked_edges(alloc, flow)?;
    if are_many(marked.len(), edges.len()) {
        return loops_alone(alloc, &edges);
    }
    loops_in_order(alloc, flow, &marked, &edges)
}
