//! Leaving out edges of locations whose marks can be spared.

ghost use Rattle.std.specs.Prelude.{◌≡◌, length, map, IfOk};
ghost use Rattle.read_decks.specs.InDeck.{loads_in};
ghost use Rattle.base_notes.specs.EdgeOf.{edge_of};
ghost use Rattle.base_graphs.specs.Graph.{row, size};
ghost use Rattle.flow_graph.specs.Executed.{AreAllNodes};
ghost use Rattle.flow_graph.specs.Flow.{nodes_of, of_flow};
ghost use Rattle.flow_acceptance.specs.Free.{AreFreeRows};
ghost use Rattle.flow_loops.specs.Loops.{AreApart, AreClosing};
ghost use Rattle.flow_loops.specs.Spared.{AreEnough, AreWithout};

use crate::beside::are_enough;
use base_graphs::Graph;
use base_notes::Edge;
use flow_graph::Flow;
use std::alloc::{AllocError, Global};

/// Some edges without one of them.
fn without(alloc: Global, edges: &[Edge], edge: Edge) -> Result<Vec<Edge>, AllocError>
    ensures { IfOk result (λ others.
        AreWithout (map edge_of edges.now) (edge_of edge) (map edge_of others.items)) }
{
    let mut others = Vec::new(alloc);
    for one in edges {
        if one.leads(edge.from, edge.onto) {
            continue;
        }
        others.push(*one)?;
    }
    Ok(others)
}

/// Of some edges that are enough those that are needed: each is tried, the last first, and left out
/// where the others that are still kept are enough.
pub(crate) fn only_needed(
    alloc: Global,
    flow: &Flow<'_>,
    graph: &Graph,
    edges: Vec<Edge>,
) -> Result<Vec<Edge>, AllocError>
    requires nodes { of_flow AreAllNodes flow.now (nodes_of flow.now) }
    requires size { size graph.now ≡ length (nodes_of flow.now) }
    requires rows { AreFreeRows (loads_in flow.now.deck.now) flow.now.notes.now
        (nodes_of flow.now) (row graph.now) }
    requires enough { of_flow AreEnough flow.now (map edge_of edges.items) }
    requires apart { AreApart (map edge_of edges.items) }
    ensures { IfOk result (λ kept. of_flow AreClosing flow.now (map edge_of kept.items)) }
{
    let mut left = edges.to_vec(alloc)?;
    let mut kept = edges;
    while let Some(edge) = left.pop() {
        let others = without(alloc, &kept, edge)?;
        if are_enough(alloc, flow, graph, &others)? {
            kept = others;
        }
    }
    Ok(kept)
}
