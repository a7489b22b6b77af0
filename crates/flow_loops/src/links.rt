//! The links of the flow graph, as a graph of its nodes' indices.

ghost use Rattle.std.specs.Prelude.{◌≡◌, ◌<◌, IfOk, Some, length, map, slice_get};
ghost use Rattle.read_decks.specs.InDeck.{loads_in};
ghost use Rattle.base_graphs.specs.Graph.{row, size};
ghost use Rattle.base_graphs.specs.Rows.{targets_in};
ghost use Rattle.flow_graph.specs.Flow.{nodes_of};
ghost use Rattle.flow_graph.specs.Hops.{Node};
ghost use Rattle.flow_loops.specs.Links.{AreLinkRows, IsLinkRow, IsOnwardRow};

use base_graphs::Graph;
use base_words::Location;
use flow_graph::Flow;
use flow_graph::location_set::LocationSet;
use std::alloc::{AllocError, Global};

/// The indices of the nodes that links from a node to one of the targets lead to.
fn onward_row(
    alloc: Global,
    flow: &Flow<'_>,
    targets: &[Location],
    node: usize,
) -> Result<Vec<usize>, AllocError>
    requires { node < length (nodes_of flow.now) }
    ensures { IfOk result (λ row. (from : Node) → slice_get (nodes_of flow.now) node ≡ Some from
        → IsOnwardRow flow.now.notes.now (nodes_of flow.now)
        (map (λ location. location.number) targets.now) from row.items) }
{
    let mut row = Vec::new(alloc);
    for onto in targets {
        let Some(index) = flow.onward(node, *onto) else {
            continue;
        };
        row.push(index)?;
    }
    Ok(row)
}

/// The indices of the nodes that links lead to from a node.
fn link_row(alloc: Global, flow: &Flow<'_>, node: usize) -> Result<Vec<usize>, AllocError>
    requires { node < length (nodes_of flow.now) }
    ensures { IfOk result (λ row. (from : Node) × (slice_get (nodes_of flow.now) node ≡ Some from)
        × IsLinkRow (loads_in flow.now.deck.now) flow.now.notes.now (nodes_of flow.now) from
        row.items) }
{
    let mut targets = LocationSet::none(alloc);
    targets.add_successors(flow.deck(), flow.notes(), flow.location(node))?;
    onward_row(alloc, flow, targets.locations(), node)
}

/// The rows of all nodes.
fn link_rows(alloc: Global, flow: &Flow<'_>) -> Result<Vec<Vec<usize>>, AllocError>
    ensures long { IfOk result (λ rows. length rows.items ≡ length (nodes_of flow.now)) }
    ensures rows { IfOk result (λ rows. AreLinkRows (loads_in flow.now.deck.now) flow.now.notes.now
        (nodes_of flow.now) (targets_in rows.items)) }
{
    let mut rows = Vec::new(alloc);
    for node in 0..flow.size() {
        let row = link_row(alloc, flow, node)?;
        rows.push(row)?;
    }
    Ok(rows)
}

/// The graph of all links, whose nodes are the indices of those of the flow graph. It takes as long
/// as discovery.
///
/// # Errors
///
/// [`AllocError`] where there is no memory for it.
pub fn link_graph(alloc: Global, flow: &Flow<'_>) -> Result<Graph, AllocError>
    ensures size { IfOk result (λ graph. size graph ≡ length (nodes_of flow.now)) }
    ensures rows { IfOk result (λ graph. AreLinkRows (loads_in flow.now.deck.now) flow.now.notes.now
        (nodes_of flow.now) (row graph)) }
{
    let rows = link_rows(alloc, flow)?;
    Ok(Graph::new(rows))
}
