//! Whether no edge of locations is both that of an edge of nodes that goes on, and that of one that
//! leads back.

ghost use Rattle.std.specs.Prelude.{◌≡◌, ℕ, ◌<◌, length, IfOk, IsTrue, IsFalse, Contains};
ghost use Rattle.base_graphs.specs.Graph.{row, size};
ghost use Rattle.flow_graph.specs.Flow.{executed_in, nodes_of};
ghost use Rattle.flow_graph.specs.Found.{places_of};
ghost use Rattle.flow_loops.specs.Closing.{places_in};
ghost use Rattle.flow_loops.specs.Spared.{AreOneWay, IsAhead, IsOn};

use crate::targets::targets_behind;
use base_graphs::Graph;
use base_words::Location;
use flow_graph::Flow;
use flow_graph::location_set::LocationSet;
use std::alloc::{AllocError, Global};

/// Whether an edge of a node goes on to one of some locations.
fn leads_on(
    targets: &LocationSet,
    flow: &Flow<'_>,
    graph: &Graph,
    ranks: &[usize],
    node: usize,
) -> bool
    requires size { size graph.now ≡ length (nodes_of flow.now) }
    requires ranks { length ranks.now ≡ size graph.now }
    requires here { node < size graph.now }
    ensures { IsFalse result → (onto : ℕ) → IsAhead (row graph.now node) ranks.now
        (places_in flow.now) node onto → ¬ Contains (places_of targets.now) onto }
{
    for next in graph.row(node) {
        if ranks[*next] <= ranks[node] {
            continue;
        }
        if targets.index_of(flow.location(*next)).is_some() {
            return true;
        }
    }
    false
}

/// Whether an edge of a node at a location goes on to one of some locations.
fn some_leads_on(
    targets: &LocationSet,
    flow: &Flow<'_>,
    graph: &Graph,
    ranks: &[usize],
    from: Location,
) -> bool
    requires size { size graph.now ≡ length (nodes_of flow.now) }
    requires ranks { length ranks.now ≡ size graph.now }
    ensures { IsFalse result → (onto : ℕ) → IsOn (row graph.now) ranks.now (places_in flow.now)
        (size graph.now) from.number onto → ¬ Contains (places_of targets.now) onto }
{
    for node in 0..graph.size() {
        if flow.location(node).number() != from.number() {
            continue;
        }
        if leads_on(targets, flow, graph, ranks, node) {
            return true;
        }
    }
    false
}

/// Whether no edge of locations is both that of an edge that goes on and that of one that doesn't,
/// by the ranks of the graph's nodes.
pub(crate) fn are_one_way(
    alloc: Global,
    flow: &Flow<'_>,
    graph: &Graph,
    ranks: &[usize],
) -> Result<bool, AllocError>
    requires size { size graph.now ≡ length (nodes_of flow.now) }
    requires ranks { length ranks.now ≡ size graph.now }
    ensures { IfOk result (λ are. IsTrue are → AreOneWay (row graph.now) ranks.now
        (places_in flow.now) (size graph.now) (executed_in flow.now)) }
{
    for from in flow.executed() {
        let targets = targets_behind(alloc, flow, graph, ranks, *from)?;
        if some_leads_on(&targets, flow, graph, ranks, *from) {
            return Ok(false);
        }
    }
    Ok(true)
}
