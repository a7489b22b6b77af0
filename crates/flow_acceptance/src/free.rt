//! The edges of nodes free of marks, as a graph of the nodes' indices in the order of discovery.

ghost use Rattle.std.specs.Prelude.{◌≡◌, ◌<◌, IfOk, Some, length, map, slice_get};
ghost use Rattle.read_decks.specs.InDeck.{loads_in};
ghost use Rattle.base_graphs.specs.Graph.{row, size};
ghost use Rattle.base_graphs.specs.Rows.{targets_in};
ghost use Rattle.flow_graph.specs.Flow.{deck_of, nodes_of, notes_of};
ghost use Rattle.flow_graph.specs.Hops.{Node};
ghost use Rattle.flow_acceptance.specs.Free.{IsFreeRow, IsUnmarkedRow, AreFreeRows};

use base_graphs::Graph;
use base_notes::Mark;
use base_words::Location;
use flow_graph::Flow;
use flow_graph::location_set::LocationSet;
use std::alloc::{AllocError, Global};

/// The indices of the nodes that edges free of marks lead to from a node.
fn free_row(alloc: Global, flow: &Flow<'_>, node: usize) -> Result<Vec<usize>, AllocError>
    requires { node < length (nodes_of flow.now) }
    ensures { IfOk result (λ row. (from : Node) × (slice_get (nodes_of flow.now) node ≡ Some from)
        × IsFreeRow (loads_in (deck_of flow.now)) (notes_of flow.now) (nodes_of flow.now) from
        row.items) }
{
    let mut targets = LocationSet::none(alloc);
    targets.add_successors(flow.deck(), flow.notes(), flow.location(node))?;
    unmarked_row(alloc, flow, targets.locations(), node)
}

/// The indices of the nodes that edges from a node to one of the targets lead to, those without a
/// mark.
fn unmarked_row(
    alloc: Global,
    flow: &Flow<'_>,
    targets: &[Location],
    node: usize,
) -> Result<Vec<usize>, AllocError>
    requires { node < length (nodes_of flow.now) }
    ensures { IfOk result (λ row. (from : Node) → slice_get (nodes_of flow.now) node ≡ Some from
        → IsUnmarkedRow (notes_of flow.now) (nodes_of flow.now)
        (map (λ location. location.number) targets.now) from row.items) }
{
    let marks = flow.notes().marks();
    let from = flow.location(node);
    let mut row = Vec::new(alloc);
    for onto in targets {
        if Mark::on_edge(marks, from, *onto).is_some() {
            continue;
        }
        let Some(index) = flow.onward(node, *onto) else {
            continue;
        };
        row.push(index)?;
    }
    Ok(row)
}

/// The rows of all nodes.
fn free_rows(alloc: Global, flow: &Flow<'_>) -> Result<Vec<Vec<usize>>, AllocError>
    ensures long { IfOk result (λ rows. length rows.items ≡ length (nodes_of flow.now)) }
    ensures rows { IfOk result (λ rows. AreFreeRows (loads_in (deck_of flow.now))
        (notes_of flow.now) (nodes_of flow.now) (targets_in rows.items)) }
{
    let mut rows = Vec::new(alloc);
    for node in 0..flow.size() {
        let row = free_row(alloc, flow, node)?;
        rows.push(row)?;
    }
    Ok(rows)
}

/// The graph of the edges free of marks, whose nodes are the indices of those of the flow graph.
pub fn free_graph(alloc: Global, flow: &Flow<'_>) -> Result<Graph, AllocError>
    ensures size { IfOk result (λ graph. size graph ≡ length (nodes_of flow.now)) }
    ensures rows { IfOk result (λ graph. AreFreeRows (loads_in (deck_of flow.now))
        (notes_of flow.now) (nodes_of flow.now) (row graph)) }
{
    let rows = free_rows(alloc, flow)?;
    Ok(Graph::new(rows))
}
