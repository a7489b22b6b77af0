//! The marks of edges that lack one. Edges that go back to one location share a mark where one loop
//! stands inside those of several of them.

ghost use Rattle.std.specs.Prelude.{◌≡◌, ◌++◌, ◌∷◌, [], ◌↔◌, IsTrue, IfOk, OnOk, filter, map};
ghost use Rattle.std.specs.List.{list_any};
ghost use Rattle.base_notes.specs.EdgeOf.{edge_of};
ghost use Rattle.check_findings.specs.Edges as of_marks;
ghost use Rattle.check_deck.specs.FindingsOf.{IsInsideIn};
ghost use Rattle.check_deck.specs.KnownInside.{AreKnown};
ghost use Rattle.check_deck.specs.Insides as said;
ghost use Rattle.check_deck.specs.Insides.{HasOne, HasSeveralWays, IsRound, ShareMark, AreShared};
ghost use Rattle.check_deck.specs.Insides.{goes_onto, new_mark, new_marks};

use crate::nesting::Nesting;
use crate::several::{has_several_ways, is_one_of};
use base_notes::{Edge, Edges};
use base_words::Location;
use check_findings::{mark_alone, marks_of};
use flow_graph::Flow;
use std::alloc::{AllocError, Global};

/// Those of some edges that go back to a location.
fn those_onto(alloc: Global, edges: &[Edge], head: Location) -> Result<Vec<Edge>, AllocError>
    ensures { IfOk result (λ those. map edge_of those.items
        ≡ filter (goes_onto head.number) (map edge_of edges.now)) }
{
    let mut those = Vec::new(alloc);
    for edge in edges {
        if edge.onto.number() != head.number() {
            continue;
        }
        those.push(*edge)?;
    }
    Ok(those)
}

/// A mark on each of these edges alone.
fn each_alone(alloc: Global, edges: &[Edge]) -> Result<Vec<Edges>, AllocError>
    ensures { IfOk result (λ marks. marks.items ≡ said.alone (map edge_of edges.now)) }
{
    let mut marks = Vec::new(alloc);
    for edge in edges {
        marks.push(mark_alone(alloc, *edge)?)?;
    }
    Ok(marks)
}

/// Whether the loop of one of the inner edges stands inside loops of two of these marks that go
/// back to one location.
fn one_has_several_ways(
    alloc: Global,
    nesting: &Nesting<'_>,
    marks: &[Edges],
    inners: &[Edge],
) -> Result<bool, AllocError>
    requires { AreKnown nesting.now }
    ensures { IfOk result (λ several. IsTrue several ↔ HasOne (λ inner. HasSeveralWays
        (IsRound (IsInsideIn nesting.now.flow.now) (inner ∷ [])) marks.now)
        (map edge_of inners.now)) }
{
    for inner in inners {
        let mark = [*inner];
        if has_several_ways(alloc, nesting, marks, &mark)? {
            return Ok(true);
        }
    }
    Ok(false)
}

/// Whether those of some edges that go back to a location share a mark.
fn share_mark(
    alloc: Global,
    nesting: &Nesting<'_>,
    inners: &[Edge],
    edges: &[Edge],
    head: Location,
) -> Result<bool, AllocError>
    requires { AreKnown nesting.now }
    ensures { IfOk result (λ share. IsTrue share ↔ ShareMark (IsInsideIn nesting.now.flow.now)
        (map edge_of inners.now) (map edge_of edges.now) head.number) }
{
    let those = those_onto(alloc, edges, head)?;
    let marks = each_alone(alloc, &those)?;
    one_has_several_ways(alloc, nesting, &marks, inners)
}

/// Whether one of some edges goes back to a location.
fn one_goes_onto(edges: &[Edge], head: Location) -> bool
    ensures { result ≡ list_any (goes_onto head.number) (map edge_of edges.now) }
{
    for edge in edges {
        if edge.onto.number() == head.number() {
            return true;
        }
    }
    false
}

/// The locations that edges go back to which share a mark, each once.
pub fn shared_heads(
    alloc: Global,
    nesting: &Nesting<'_>,
    inners: &[Edge],
    edges: &[Edge],
) -> Result<Vec<Location>, AllocError>
    requires { AreKnown nesting.now }
    ensures { IfOk result (λ shared. AreShared (IsInsideIn nesting.now.flow.now)
        (map edge_of inners.now) (map edge_of edges.now)
        (map (λ head. head.number) shared.items)) }
{
    let mut shared = Vec::new(alloc);
    for (index, edge) in edges.iter().enumerate() {
        if one_goes_onto(&edges[..index], edge.onto) {
            continue;
        }
        if !share_mark(alloc, nesting, inners, edges, edge.onto)? {
            continue;
        }
        shared.push(edge.onto)?;
    }
    Ok(shared)
}

/// The mark of one of some edges: on all of these that share it, or on this one alone.
pub fn mark_on(
    alloc: Global,
    shared: &[Location],
    edges: &[Edge],
    edge: Edge,
) -> Result<Edges, AllocError>
    ensures { IfOk result (λ mark. mark ≡ said.mark_on (map (λ head. head.number) shared.now)
        (map edge_of edges.now) (edge_of edge)) }
{
    if !is_one_of(shared, edge.onto) {
        return mark_alone(alloc, edge);
    }
    let those = those_onto(alloc, edges, edge.onto)?;
    Ok(Edges::new(those))
}

/// Whether the edge is a mark's first.
pub fn begins(mark: &[Edge], edge: Edge) -> bool
    ensures { result ≡ said.begins (map edge_of mark.now) (edge_of edge) }
{
    match mark.first() {
        Some(first) => first.leads(edge.from, edge.onto),
        None => false,
    }
}

/// Adds the mark that comes with one of some edges, if that is the mark's first.
pub fn add_new_mark(
    marks: &mut Vec<Edges>,
    alloc: Global,
    shared: &[Location],
    edges: &[Edge],
    edge: Edge,
) -> Result<(), AllocError>
    ensures { OnOk result (marks.new.items ≡ marks.old.items
        ++ new_mark (map (λ head. head.number) shared.now) (map edge_of edges.now)
        (edge_of edge)) }
{
    let mark = mark_on(alloc, shared, edges, edge)?;
    if !begins(mark.all(), edge) {
        return Ok(());
    }
    marks.push(mark)?;
    Ok(())
}

/// The notes' marks, and then those that come with these edges.
pub fn all_marks(
    alloc: Global,
    flow: &Flow<'_>,
    shared: &[Location],
    edges: &[Edge],
) -> Result<Vec<Edges>, AllocError>
    ensures { IfOk result (λ all. all.items ≡ of_marks.marks_of flow.now.notes.now
        ++ new_marks (map (λ head. head.number) shared.now) (map edge_of edges.now)
        (map edge_of edges.now)) }
{
    let mut all = marks_of(alloc, flow)?;
    for edge in edges {
        add_new_mark(&mut all, alloc, shared, edges, *edge)?;
    }
    Ok(all)
}
