//! An order of the nodes in which every edge free of marks goes on, or a cycle of such edges.

ghost use Rattle.std.specs.Prelude.{◌≡◌, ℕ, ◌<◌, [], map, length, Contains, IfOk, IfErr};
ghost use Rattle.read_decks.specs.InDeck.{loads_in};
ghost use Rattle.base_graphs.specs.Graph.{row, size, IsCycle};
ghost use Rattle.flow_graph.specs.Executed.{AreAllNodes};
ghost use Rattle.flow_graph.specs.Flow.{deck_of, executed_in, nodes_of, notes_of, of_flow, AreFound};
ghost use Rattle.flow_acceptance.specs.Free.{those_at, AreFreeRows, IsFreeOrder, IsNodeOrder};
ghost use Rattle.flow_acceptance.specs.Free.{IsCycleRefusal};

use crate::free::free_graph;
use base_graphs::{Graph, Sorted, sort};
use base_words::Location;
use flow_graph::{Cycle, Flow, Refusal};
use std::alloc::{AllocError, Global};

/// An order of the nodes in which every edge free of marks goes on.
#[derive(Drop)]
pub struct FreeOrder {
    /// The indices of the nodes.
    pub nodes: Vec<usize>,
    /// Their locations.
    pub locations: Vec<Location>,
}

/// An order of the nodes in which every edge free of marks goes on.
///
/// # Errors
///
/// [`Refusal::Unbounded`] with a cycle of edges free of marks, where there is one;
/// [`Refusal::Memory`] where there is no memory.
pub fn free_order(alloc: Global, flow: &Flow<'_>) -> Result<FreeOrder, Refusal>
    requires nodes { of_flow AreAllNodes flow.now (nodes_of flow.now) }
    requires found { of_flow AreFound flow.now (executed_in flow.now) }
    ensures within { IfOk result (λ order. (index : ℕ) → Contains order.nodes.items index
        → index < length (nodes_of flow.now)) }
    ensures nodes { IfOk result (λ order. IsNodeOrder (loads_in (deck_of flow.now))
        (notes_of flow.now) (nodes_of flow.now) (those_at (nodes_of flow.now) order.nodes.items)) }
    ensures order { IfOk result (λ order. (notes_of flow.now).calls ≡ []
        → IsFreeOrder (loads_in (deck_of flow.now)) (notes_of flow.now) (executed_in flow.now)
        (map (λ location. location.number) order.locations.items)) }
    ensures cycle { IfErr result (of_flow IsCycleRefusal flow.now) }
{
    let graph = free_graph(alloc, flow)?;
    match sort(alloc, &graph)? {
        Sorted::Ordered(nodes) => {
            let locations = locations_at(alloc, flow, &nodes)?;
            Ok(FreeOrder { nodes, locations })
        }
        Sorted::Cyclic(cycle) => Err(unbounded(alloc, flow, &graph, &cycle)),
    }
}

/// The refusal for a cycle of the graph, whose nodes are indices.
fn unbounded(alloc: Global, flow: &Flow<'_>, graph: &Graph, cycle: &[usize]) -> Refusal
    requires size { size graph.now ≡ length (nodes_of flow.now) }
    requires rows { AreFreeRows (loads_in (deck_of flow.now)) (notes_of flow.now)
        (nodes_of flow.now) (row graph.now) }
    requires cycle { IsCycle (row graph.now) (size graph.now) cycle.now }
    requires nodes { of_flow AreAllNodes flow.now (nodes_of flow.now) }
    ensures { of_flow IsCycleRefusal flow.now result }
{
    match locations_at(alloc, flow, cycle) {
        Ok(locations) => Refusal::Unbounded(Cycle::turned(locations)),
        Err(_) => Refusal::Memory,
    }
}

/// The locations of the nodes with these indices.
fn locations_at(
    alloc: Global,
    flow: &Flow<'_>,
    indices: &[usize],
) -> Result<Vec<Location>, AllocError>
    requires { (index : ℕ) → Contains indices.now index → index < length (nodes_of flow.now) }
    ensures { IfOk result (λ locations. map (λ location. location.number) locations.items
        ≡ map (λ node. node.place) (those_at (nodes_of flow.now) indices.now)) }
{
    let mut locations = Vec::new(alloc);
    for index in indices {
        locations.push(flow.location(*index))?;
    }
    Ok(locations)
}
