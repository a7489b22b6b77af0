ghost use Rattle.std.specs.Prelude.{◌≡◌, ◌++◌, length, map, IfOk, OnOk};
ghost use Rattle.base_notes.specs.EdgeOf.{edge_of};
ghost use Rattle.base_graphs.specs.Graph.{row, size};
ghost use Rattle.flow_graph.specs.Executed.{AreAllNodes};
ghost use Rattle.flow_graph.specs.Flow.{executed_in, nodes_of, of_flow, AreFound};
ghost use Rattle.flow_loops.specs.Closing.{edges_onto, places_in, AreBack};
ghost use Rattle.flow_loops.specs.Loops.{AreClosing};

use crate::arranging::arrange;
use crate::one_way::are_one_way;
use crate::ranking::ranks_in;
use crate::sparing::only_needed;
use crate::targets::targets_behind;
use base_graphs::Graph;
use base_notes::Edge;
use base_words::Location;
use flow_acceptance::free::free_graph;
use flow_graph::Flow;
use std::alloc::{AllocError, Global};

/// Adds the edges from a location to some others.
fn add_edges(edges: &mut Vec<Edge>, from: Location, targets: &[Location]) -> Result<(), AllocError>
    ensures { OnOk result (map edge_of edges.new.items ≡ map edge_of edges.old.items
        ++ edges_onto from.number (map (λ location. location.number) targets.now)) }
{
    for onto in targets {
        edges.push(Edge { from, onto: *onto })?;
    }
    Ok(())
}

/// The edges of locations that some node has as an edge that doesn't go on, by the ranks of the
/// graph's nodes.
fn edges_back(
    alloc: Global,
    flow: &Flow<'_>,
    graph: &Graph,
    ranks: &[usize],
) -> Result<Vec<Edge>, AllocError>
    requires size { size graph.now ≡ length (nodes_of flow.now) }
    requires ranks { length ranks.now ≡ size graph.now }
    ensures { IfOk result (λ edges. AreBack (row graph.now) ranks.now (places_in flow.now)
        (size graph.now) (executed_in flow.now) (map edge_of edges.items)) }
{
    let mut edges = Vec::new(alloc);
    for from in flow.executed() {
        let targets = targets_behind(alloc, flow, graph, ranks, *from)?;
        add_edges(&mut edges, *from, targets.locations())?;
    }
    Ok(edges)
}

/// The edges that close the loops of a flow graph. With a mark on each of them, no list of edges
/// that leads round is free of marks; and whichever of these marks is left out, some such list is.
/// It takes the time of discovery, and besides a time that grows with the number of edges, and with
/// that of the locations times that of the nodes. Where an edge of locations goes on from one node
/// and leads back from another, marks may be spare: then it looks besides, once for each edge that
/// it found, for every edge of nodes among them all.
///
/// # Errors
///
/// [`AllocError`] where there is no memory for it.
pub fn closing_edges(alloc: Global, flow: &Flow<'_>) -> Result<Vec<Edge>, AllocError>
    requires nodes { of_flow AreAllNodes flow.now (nodes_of flow.now) }
    requires found { of_flow AreFound flow.now (executed_in flow.now) }
    ensures { IfOk result (λ edges. of_flow AreClosing flow.now (map edge_of edges.items)) }
{
    let graph = free_graph(alloc, flow)?;
    let order = arrange(alloc, &graph)?;
    let ranks = ranks_in(alloc, &order, graph.size())?;
    let edges = edges_back(alloc, flow, &graph, &ranks)?;
    if are_one_way(alloc, flow, &graph, &ranks)? {
        return Ok(edges);
    }
    only_needed(alloc, flow, &graph, edges)
}
