//! Where the instructions of a location go on, as the nodes of the flow graph that stand there do.

ghost use Rattle.std.specs.Prelude.{◌≡◌, ◌<◌, length, slice_get, IfOk, Some};
ghost use Rattle.read_decks.specs.InDeck.{loads_in};
ghost use Rattle.flow_graph.specs.Executed.{may_go as may_go_along, AreAllNodes};
ghost use Rattle.flow_graph.specs.Flow.{nodes_of, of_flow};
ghost use Rattle.flow_graph.specs.Found.{places_of};
ghost use Rattle.flow_graph.specs.Hops as graphs;
ghost use Rattle.flow_graph.specs.Taken as taken;
ghost use Rattle.print_graphs.specs.Graph as said;
ghost use Rattle.print_graphs.specs.GraphOf.{AreAt};

use base_words::Location;
use flow_graph::Flow;
use flow_graph::location_set::LocationSet;
use std::alloc::{AllocError, Global};

/// The indices of the nodes at a location.
fn nodes_at(alloc: Global, flow: &Flow<'_>, location: Location) -> Result<Vec<usize>, AllocError>
    ensures { IfOk result (λ nodes. AreAt (nodes_of flow.now) (length (nodes_of flow.now))
        location.number nodes.items) }
{
    let mut nodes = Vec::new(alloc);
    for node in 0..flow.size() {
        if flow.location(node).number() != location.number() {
            continue;
        }
        nodes.push(node)?;
    }
    Ok(nodes)
}

/// Whether a step may go from the node with this index along an edge onto a location.
fn may_go(flow: &Flow<'_>, node: usize, onto: Location) -> bool
    requires nodes { of_flow AreAllNodes flow.now (nodes_of flow.now) }
    requires here { node < length (nodes_of flow.now) }
    requires edge { (from : graphs.Node) → slice_get (nodes_of flow.now) node ≡ Some from
        → graphs.IsEdge (loads_in flow.now.deck.now) flow.now.notes.now from.place onto.number }
    ensures { (from : graphs.Node) × (slice_get (nodes_of flow.now) node ≡ Some from)
        × (result ≡ may_go_along flow.now.notes.now.calls from.ways
        (graphs.edge_between from.place onto.number)) }
{
    flow.onward(node, onto).is_some()
}

/// Whether a step may go on to a location from one of these nodes, which are those at another.
fn is_taken(flow: &Flow<'_>, from: Location, nodes: &[usize], onto: Location) -> bool
    requires nodes { of_flow AreAllNodes flow.now (nodes_of flow.now) }
    requires all { AreAt (nodes_of flow.now) (length (nodes_of flow.now)) from.number nodes.now }
    requires edge { graphs.IsEdge (loads_in flow.now.deck.now) flow.now.notes.now
        from.number onto.number }
    ensures { result ≡ taken.is_taken flow.now.notes.now (nodes_of flow.now) from.number
        onto.number }
{
    for node in nodes {
        if may_go(flow, *node, onto) {
            return true;
        }
    }
    false
}

/// The locations where the instructions of a location go on, each once, of those to which a step
/// may go on from some node there.
pub(crate) fn nexts_at(
    alloc: Global,
    flow: &Flow<'_>,
    location: Location,
) -> Result<LocationSet, AllocError>
    requires { of_flow AreAllNodes flow.now (nodes_of flow.now) }
    ensures { IfOk result (λ nexts. places_of nexts ≡ said.nexts (loads_in flow.now.deck.now)
        flow.now.notes.now (nodes_of flow.now) location.number) }
{
    let mut all = LocationSet::none(alloc);
    all.add_successors(flow.deck(), flow.notes(), location)?;
    let nodes = nodes_at(alloc, flow, location)?;
    let mut nexts = LocationSet::none(alloc);
    for next in all.locations() {
        if !is_taken(flow, location, &nodes, *next) {
            continue;
        }
        nexts.add(*next)?;
    }
    Ok(nexts)
}
