ghost use Rattle.std.specs.Prelude.{IfOk};
ghost use Rattle.base_graphs.specs.Graph.{row, size};
ghost use Rattle.flow_loops.specs.Arranged.{IsArranged};

use crate::arrangement::Arrangement;
use base_graphs::Graph;
use std::alloc::{AllocError, Global};

/// An order of a graph's nodes in which each edge goes on, or leads to a node from which edges that
/// go on lead back. The time that it takes grows with the number of nodes and edges.
pub(crate) fn arrange(alloc: Global, graph: &Graph) -> Result<Vec<usize>, AllocError>
    ensures { IfOk result (λ order. IsArranged (row graph.now) (size graph.now) order.items) }
{
    let mut search = Arrangement::new(alloc, graph)?;
    for root in 0..graph.size() {
        search.finish_root(graph, root)?;
    }
    Ok(search.into_order())
}
