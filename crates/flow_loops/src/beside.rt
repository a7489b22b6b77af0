//! The graph without the edges of some locations' edges, and whether marks on these are enough.

ghost use Rattle.std.specs.Prelude.{◌≡◌, ℕ, ◌<◌, ◌↔◌, length, map, IfOk, IsTrue, IsFalse, Contains};
ghost use Rattle.read_decks.specs.InDeck.{loads_in};
ghost use Rattle.base_notes.specs.EdgeOf.{edge_of};
ghost use Rattle.base_graphs.specs.Graph.{row, size};
ghost use Rattle.base_graphs.specs.Rows.{targets_in};
ghost use Rattle.flow_graph.specs.Executed.{AreAllNodes};
ghost use Rattle.flow_graph.specs.Flow.{nodes_of, of_flow};
ghost use Rattle.flow_acceptance.specs.Free.{AreFreeRows};
ghost use Rattle.flow_loops.specs.Closing.{places_in};
ghost use Rattle.flow_loops.specs.Spared.{AreEnough, IsRowBeside, LackSome};

use base_graphs::{Graph, Sorted, sort};
use base_notes::Edge;
use base_words::Location;
use flow_graph::Flow;
use std::alloc::{AllocError, Global};

/// Whether one of some edges leads from the one location to the other.
fn has_edge(edges: &[Edge], from: Location, onto: Location) -> bool
    ensures { IsTrue result ↔ Contains (map edge_of edges.now) (from.number, onto.number) }
{
    for edge in edges {
        if edge.leads(from, onto) {
            return true;
        }
    }
    false
}

/// A node's row without those whose locations' edge is one of some edges.
fn row_beside(
    alloc: Global,
    flow: &Flow<'_>,
    graph: &Graph,
    edges: &[Edge],
    node: usize,
) -> Result<Vec<usize>, AllocError>
    requires size { size graph.now ≡ length (nodes_of flow.now) }
    requires here { node < size graph.now }
    ensures { IfOk result (λ rest. IsRowBeside (places_in flow.now) (map edge_of edges.now) node
        (row graph.now node) rest.items) }
{
    let from = flow.location(node);
    let mut rest = Vec::new(alloc);
    for next in graph.row(node) {
        if has_edge(edges, from, flow.location(*next)) {
            continue;
        }
        rest.push(*next)?;
    }
    Ok(rest)
}

/// The rows of all nodes.
fn rows_beside(
    alloc: Global,
    flow: &Flow<'_>,
    graph: &Graph,
    edges: &[Edge],
) -> Result<Vec<Vec<usize>>, AllocError>
    requires { size graph.now ≡ length (nodes_of flow.now) }
    ensures long { IfOk result (λ rows. length rows.items ≡ size graph.now) }
    ensures rows { IfOk result (λ rows. (node : ℕ) → node < size graph.now
        → IsRowBeside (places_in flow.now) (map edge_of edges.now) node (row graph.now node)
        (targets_in rows.items node)) }
{
    let mut rows = Vec::new(alloc);
    for node in 0..graph.size() {
        let rest = row_beside(alloc, flow, graph, edges, node)?;
        rows.push(rest)?;
    }
    Ok(rows)
}

/// The graph without the edges of nodes whose locations' edge is one of some edges.
fn graph_beside(
    alloc: Global,
    flow: &Flow<'_>,
    graph: &Graph,
    edges: &[Edge],
) -> Result<Graph, AllocError>
    requires { size graph.now ≡ length (nodes_of flow.now) }
    ensures long { IfOk result (λ rest. size rest ≡ size graph.now) }
    ensures rows { IfOk result (λ rest. (node : ℕ) → node < size graph.now
        → IsRowBeside (places_in flow.now) (map edge_of edges.now) node (row graph.now node)
        (row rest node)) }
{
    let rows = rows_beside(alloc, flow, graph, edges)?;
    Ok(Graph::new(rows))
}

/// Whether marks on some edges are enough, beside those of the notes. The graph is that of the
/// edges free of marks.
pub(crate) fn are_enough(
    alloc: Global,
    flow: &Flow<'_>,
    graph: &Graph,
    edges: &[Edge],
) -> Result<bool, AllocError>
    requires nodes { of_flow AreAllNodes flow.now (nodes_of flow.now) }
    requires size { size graph.now ≡ length (nodes_of flow.now) }
    requires rows { AreFreeRows (loads_in flow.now.deck.now) flow.now.notes.now
        (nodes_of flow.now) (row graph.now) }
    ensures enough { IfOk result (λ enough. IsTrue enough
        → of_flow AreEnough flow.now (map edge_of edges.now)) }
    ensures lacks { IfOk result (λ enough. IsFalse enough
        → of_flow LackSome flow.now (map edge_of edges.now)) }
{
    let rest = graph_beside(alloc, flow, graph, edges)?;
    match sort(alloc, &rest)? {
        Sorted::Ordered(_) => Ok(true),
        Sorted::Cyclic(_) => Ok(false),
    }
}
