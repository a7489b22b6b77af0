ghost use Rattle.std.specs.Prelude.{◌≡◌, ◌<◌, length, IfOk, OnOk};
ghost use Rattle.base_graphs.specs.Graph.{row, size};
ghost use Rattle.flow_graph.specs.Flow.{nodes_of};
ghost use Rattle.flow_graph.specs.Found.{places_of};
ghost use Rattle.flow_loops.specs.Closing.{places_in, AreAdded, AreTargets};

use base_graphs::Graph;
use base_words::Location;
use flow_graph::Flow;
use flow_graph::location_set::LocationSet;
use std::alloc::{AllocError, Global};

/// Adds the locations that a node's edges lead back to: those of nodes whose rank isn't above its
/// own.
fn add_behind(
    targets: &mut LocationSet,
    flow: &Flow<'_>,
    graph: &Graph,
    ranks: &[usize],
    node: usize,
) -> Result<(), AllocError>
    requires size { size graph.now ≡ length (nodes_of flow.now) }
    requires ranks { length ranks.now ≡ size graph.now }
    requires here { node < size graph.now }
    ensures { OnOk result (AreAdded (row graph.now node) ranks.now (places_in flow.now) node
        (places_of targets.old) (places_of targets.new)) }
{
    for next in graph.row(node) {
        if ranks[node] < ranks[*next] {
            continue;
        }
        targets.add(flow.location(*next))?;
    }
    Ok(())
}

/// The locations that the edges of the nodes at a location lead back to.
pub(crate) fn targets_behind(
    alloc: Global,
    flow: &Flow<'_>,
    graph: &Graph,
    ranks: &[usize],
    from: Location,
) -> Result<LocationSet, AllocError>
    requires size { size graph.now ≡ length (nodes_of flow.now) }
    requires ranks { length ranks.now ≡ size graph.now }
    ensures { IfOk result (λ targets. AreTargets (row graph.now) ranks.now (places_in flow.now)
        (size graph.now) from.number (places_of targets)) }
{
    let mut targets = LocationSet::none(alloc);
    for node in 0..graph.size() {
        if flow.location(node).number() != from.number() {
            continue;
        }
        add_behind(&mut targets, flow, graph, ranks, node)?;
    }
    Ok(targets)
}
