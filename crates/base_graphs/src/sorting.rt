ghost use Rattle.std.specs.Prelude.{IfOk};
ghost use Rattle.base_graphs.specs.Graph.{row, size, IsSorted};

use crate::graph::Graph;
use crate::search::Search;
use crate::sorted::Sorted;
use std::alloc::{AllocError, Global};

/// An order of a graph's nodes in which every edge goes on, or a cycle. The time that it takes
/// grows with the number of nodes and edges.
pub fn sort(alloc: Global, graph: &Graph) -> Result<Sorted, AllocError>
    ensures { IfOk result (λ sorted. IsSorted (row graph.now) (size graph.now) sorted) }
{
    let mut search = Search::new(alloc, graph)?;
    for root in 0..graph.size() {
        if let Some(cycle) = search.finish_root(alloc, graph, root)? {
            return Ok(Sorted::Cyclic(cycle));
        }
    }
    Ok(Sorted::Ordered(search.into_order()))
}
