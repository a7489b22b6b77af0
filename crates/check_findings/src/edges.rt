//! Whether the flow graph has a location, or an edge; and marks by their edges.

ghost use Rattle.std.specs.Prelude.{◌≡◌, ◌<◌, ◌++◌, [], ◌∷◌, true, IfOk, OnOk, Some, length, map};
ghost use Rattle.std.specs.Prelude.{slice_get};
ghost use Rattle.std.specs.List.{list_any};
ghost use Rattle.read_decks.specs.InDeck.{loads_in};
ghost use Rattle.base_notes.specs.EdgeOf.{edge_of};
ghost use Rattle.base_notes.specs.Marks.{edges_of};
ghost use Rattle.flow_graph.specs.Executed.{AreAllNodes, successors};
ghost use Rattle.flow_graph.specs.Flow.{executed_in, nodes_of, of_flow};
ghost use Rattle.flow_graph.specs.Hops as graphs;
ghost use Rattle.flow_graph.specs.Taken as among;
ghost use Rattle.flow_graph.specs.Taken.{is_among};
ghost use Rattle.check_findings.specs.Edges as said;
ghost use Rattle.check_findings.specs.Edges.{marked_edges, marks_of};

use base_notes::{Edge, Edges, Mark, Notes};
use base_words::Location;
use flow_graph::Flow;
use flow_graph::location_set::LocationSet;
use read_decks::Deck;
use std::alloc::{AllocError, Global};

/// Whether the location is executed.
pub fn is_executed(flow: &Flow<'_>, location: Location) -> bool
    ensures { result ≡ is_among (executed_in flow.now) location.number }
{
    flow.index_of(location).is_some()
}

/// Whether some instruction at the one location goes on at the other.
fn goes_on(
    alloc: Global,
    deck: &Deck,
    notes: &Notes,
    from: Location,
    onto: Location,
) -> Result<bool, AllocError>
    ensures { IfOk result (λ goes. goes
        ≡ is_among (successors (loads_in deck.now) notes.now from.number) onto.number) }
{
    let mut targets = LocationSet::none(alloc);
    targets.add_successors(deck, notes, from)?;
    Ok(targets.index_of(onto).is_some())
}

/// Whether a node stands at the one location, and a step may go from it to the other, where some
/// instruction goes on so.
fn may_go_on(flow: &Flow<'_>, node: usize, from: Location, onto: Location) -> bool
    requires nodes { of_flow AreAllNodes flow.now (nodes_of flow.now) }
    requires within { node < length (nodes_of flow.now) }
    requires goes { is_among (successors (loads_in flow.now.deck.now) flow.now.notes.now
        from.number) onto.number ≡ true }
    ensures { (one : graphs.Node) → slice_get (nodes_of flow.now) node ≡ Some one
        → result ≡ among.may_go_on flow.now.notes.now from.number onto.number one }
{
    flow.location(node).number() == from.number() && flow.onward(node, onto).is_some()
}

/// Whether some node does.
fn one_may_go_on(flow: &Flow<'_>, from: Location, onto: Location) -> bool
    requires nodes { of_flow AreAllNodes flow.now (nodes_of flow.now) }
    requires goes { is_among (successors (loads_in flow.now.deck.now) flow.now.notes.now
        from.number) onto.number ≡ true }
    ensures { result ≡ list_any (among.may_go_on flow.now.notes.now from.number onto.number)
        (nodes_of flow.now) }
{
    for node in 0..flow.size() {
        if may_go_on(flow, node, from, onto) {
            return true;
        }
    }
    false
}

/// Whether the flow graph has a link from a node at the one location to one at the other.
pub fn has_edge(
    alloc: Global,
    flow: &Flow<'_>,
    from: Location,
    onto: Location,
) -> Result<bool, AllocError>
    requires { of_flow AreAllNodes flow.now (nodes_of flow.now) }
    ensures { IfOk result (λ has. has ≡ said.has_edge (loads_in flow.now.deck.now)
        flow.now.notes.now (nodes_of flow.now) from.number onto.number) }
{
    if !goes_on(alloc, flow.deck(), flow.notes(), from, onto)? {
        return Ok(false);
    }
    Ok(one_may_go_on(flow, from, onto))
}

/// Adds the edges of a mark.
fn add_edges(edges: &mut Vec<Edge>, mark: &Mark) -> Result<(), AllocError>
    ensures { OnOk result (map edge_of edges.new.items
        ≡ map edge_of edges.old.items ++ edges_of mark.now) }
{
    edges.push(mark.first())?;
    edges.extend_from_slice(mark.others.all())
}

/// The edges of the notes' marks.
pub fn marked_edges(alloc: Global, flow: &Flow<'_>) -> Result<Vec<Edge>, AllocError>
    ensures { IfOk result (λ edges. map edge_of edges.items ≡ marked_edges flow.now.notes.now) }
{
    let mut edges = Vec::new(alloc);
    for mark in flow.notes().marks() {
        add_edges(&mut edges, mark)?;
    }
    Ok(edges)
}

/// The edges of a mark.
fn edges_in(alloc: Global, mark: &Mark) -> Result<Edges, AllocError>
    ensures { IfOk result (λ edges. edges ≡ edges_of mark.now) }
{
    let mut edges = Vec::new(alloc);
    add_edges(&mut edges, mark)?;
    Ok(Edges::new(edges))
}

/// The notes' marks, each by its edges.
pub fn marks_of(alloc: Global, flow: &Flow<'_>) -> Result<Vec<Edges>, AllocError>
    ensures { IfOk result (λ marks. marks.items ≡ marks_of flow.now.notes.now) }
{
    let mut marks = Vec::new(alloc);
    for mark in flow.notes().marks() {
        marks.push(edges_in(alloc, mark)?)?;
    }
    Ok(marks)
}

/// A mark on one edge alone.
pub fn mark_alone(alloc: Global, edge: Edge) -> Result<Edges, AllocError>
    ensures { IfOk result (λ mark. mark ≡ edge_of edge ∷ []) }
{
    let mut edges = Vec::new(alloc);
    edges.push(edge)?;
    Ok(Edges::new(edges))
}
