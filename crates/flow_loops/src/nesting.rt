//! Whether one loop stands inside another one.

ghost use Rattle.std.specs.Prelude.{◌≡◌, ℕ, ◌<◌, ◌↔◌, ◌⊎◌, IsTrue, IfOk, Contains, length};
ghost use Rattle.read_decks.specs.InDeck.{loads_in, start_in};
ghost use Rattle.base_notes.specs.EdgeOf.{edge_of};
ghost use Rattle.base_graphs.specs.Graph.{row, size};
ghost use Rattle.flow_graph.specs.Executed.{AreAllNodes};
ghost use Rattle.flow_graph.specs.Flow.{nodes_of, of_flow};
ghost use Rattle.flow_loops.specs.Closing.{places_in};
ghost use Rattle.flow_loops.specs.Links.{AreLinkRows};
ghost use Rattle.flow_loops.specs.Nested.{IsNested};
ghost use Rattle.flow_loops.specs.Reached.{HasSuch, IsAt, LeadsAbout, LeadsBack, LeadsOut};
ghost use Rattle.flow_loops.specs.Reached.{LeadsToSuch, OneLeadsAbout};

use crate::reached::Reached;
use base_graphs::Graph;
use base_notes::Edge;
use base_words::Location;
use flow_graph::Flow;
use std::alloc::{AllocError, Global};

/// Whether one of some nodes stands at a location.
fn one_is_at(flow: &Flow<'_>, nodes: &[usize], location: Location) -> bool
    requires { (node : ℕ) → Contains nodes.now node → node < length (nodes_of flow.now) }
    ensures { IsTrue result ↔ HasSuch (IsAt (places_in flow.now) location.number) nodes.now }
{
    for node in nodes {
        if flow.location(*node).number() == location.number() {
            return true;
        }
    }
    false
}

/// Whether a node stands at the location `from`, and leads to the node `back`.
fn leads_back(flow: &Flow<'_>, graph: &Graph, from: Location, back: usize, node: usize) -> bool
    requires size { size graph.now ≡ length (nodes_of flow.now) }
    requires within { node < size graph.now }
    ensures { IsTrue result
        ↔ LeadsBack (row graph.now) (places_in flow.now) from.number back node }
{
    flow.location(node).number() == from.number() && graph.row(node).contains(&back)
}

/// Whether one of some nodes does.
fn one_leads_back(
    flow: &Flow<'_>,
    graph: &Graph,
    nodes: &[usize],
    from: Location,
    back: usize,
) -> bool
    requires size { size graph.now ≡ length (nodes_of flow.now) }
    requires within { (node : ℕ) → Contains nodes.now node → node < size graph.now }
    ensures { IsTrue result
        ↔ HasSuch (LeadsBack (row graph.now) (places_in flow.now) from.number back) nodes.now }
{
    for node in nodes {
        if leads_back(flow, graph, from, back, *node) {
            return true;
        }
    }
    false
}

/// Whether a node has a link along an edge of locations.
fn leads_out(flow: &Flow<'_>, graph: &Graph, edge: Edge, node: usize) -> bool
    requires size { size graph.now ≡ length (nodes_of flow.now) }
    requires within { node < size graph.now }
    ensures { IsTrue result ↔ LeadsOut (row graph.now) (places_in flow.now) (edge_of edge) node }
{
    flow.location(node).number() == edge.from.number()
        && one_is_at(flow, graph.row(node), edge.onto)
}

/// Whether one of some nodes has.
fn one_leads_out(flow: &Flow<'_>, graph: &Graph, nodes: &[usize], edge: Edge) -> bool
    requires size { size graph.now ≡ length (nodes_of flow.now) }
    requires within { (node : ℕ) → Contains nodes.now node → node < size graph.now }
    ensures { IsTrue result
        ↔ HasSuch (LeadsOut (row graph.now) (places_in flow.now) (edge_of edge)) nodes.now }
{
    for node in nodes {
        if leads_out(flow, graph, edge, *node) {
            return true;
        }
    }
    false
}

/// Whether links lead from a node round the inner loop, to this very node again, and to the outer
/// loop's edge, none of them onto the outer loop's head.
fn goes_round(
    alloc: Global,
    flow: &Flow<'_>,
    graph: &Graph,
    outer: Edge,
    inner: Edge,
    node: usize,
) -> Result<bool, AllocError>
    requires size { size graph.now ≡ length (nodes_of flow.now) }
    requires within { node < size graph.now }
    ensures { IfOk result (λ round. IsTrue round ↔ LeadsAbout (row graph.now) (places_in flow.now)
        (edge_of outer) (edge_of inner) node) }
{
    let reached = Reached::past(alloc, flow, graph, outer.onto, node)?;
    if !one_leads_back(flow, graph, &reached.nodes, inner.from, node) {
        return Ok(false);
    }
    Ok(one_leads_out(flow, graph, &reached.nodes, outer))
}

/// Whether they do from a node that stands at the inner loop's head.
fn goes_round_there(
    alloc: Global,
    flow: &Flow<'_>,
    graph: &Graph,
    outer: Edge,
    inner: Edge,
    node: usize,
) -> Result<bool, AllocError>
    requires size { size graph.now ≡ length (nodes_of flow.now) }
    requires within { node < size graph.now }
    ensures { IfOk result (λ round. IsTrue round ↔ (IsAt (places_in flow.now) inner.onto.number node
        × LeadsAbout (row graph.now) (places_in flow.now) (edge_of outer) (edge_of inner) node)) }
{
    if flow.location(node).number() != inner.onto.number() {
        return Ok(false);
    }
    goes_round(alloc, flow, graph, outer, inner, node)
}

/// Whether they do from some node at the inner loop's head.
fn one_goes_round(
    alloc: Global,
    flow: &Flow<'_>,
    graph: &Graph,
    outer: Edge,
    inner: Edge,
) -> Result<bool, AllocError>
    requires { size graph.now ≡ length (nodes_of flow.now) }
    ensures { IfOk result (λ round. IsTrue round ↔ OneLeadsAbout (row graph.now)
        (places_in flow.now) (edge_of outer) (edge_of inner) (size graph.now)) }
{
    for node in 0..graph.size() {
        if goes_round_there(alloc, flow, graph, outer, inner, node)? {
            return Ok(true);
        }
    }
    Ok(false)
}

/// Whether the start is a loop's head, or leads to a location through that head alone. The flow
/// graph's first node is the start's.
fn is_entered_by(
    alloc: Global,
    flow: &Flow<'_>,
    graph: &Graph,
    head: Location,
    location: Location,
) -> Result<bool, AllocError>
    requires size { size graph.now ≡ length (nodes_of flow.now) }
    requires first { 0 < size graph.now }
    ensures { IfOk result (λ entered. IsTrue entered ↔ ((start_in flow.now.deck.now ≡ head.number)
        ⊎ ¬ LeadsToSuch (row graph.now) (places_in flow.now) head.number 0
        (IsAt (places_in flow.now) location.number))) }
{
    if flow.deck().start().number() == head.number() {
        return Ok(true);
    }
    let reached = Reached::past(alloc, flow, graph, head, 0)?;
    Ok(!one_is_at(flow, &reached.nodes, location))
}

/// Whether the loop that the edge `inner` closes stands inside the one that `outer` closes, by the
/// graph of all links ([`link_graph`](crate::link_graph)). It goes through that graph once from the
/// start, and once from each node at the inner loop's head.
///
/// # Errors
///
/// [`AllocError`] where there is no memory for it.
pub fn is_nested(
    alloc: Global,
    flow: &Flow<'_>,
    graph: &Graph,
    outer: Edge,
    inner: Edge,
) -> Result<bool, AllocError>
    requires nodes { of_flow AreAllNodes flow.now (nodes_of flow.now) }
    requires size { size graph.now ≡ length (nodes_of flow.now) }
    requires rows { AreLinkRows (loads_in flow.now.deck.now) flow.now.notes.now
        (nodes_of flow.now) (row graph.now) }
    ensures { IfOk result (λ nested. IsTrue nested
        ↔ of_flow IsNested flow.now (edge_of outer) (edge_of inner)) }
{
    if inner.onto.number() == outer.onto.number() {
        return Ok(false);
    }
    if !is_entered_by(alloc, flow, graph, outer.onto, inner.onto)? {
        return Ok(false);
    }
    one_goes_round(alloc, flow, graph, outer, inner)
}
