ghost use Rattle.std.specs.Prelude.{◌≡◌, ℕ, ◌<◌, length, IfOk, Contains};
ghost use Rattle.base_graphs.specs.Graph.{AreDifferent};
ghost use Rattle.flow_loops.specs.Ranks.{AreRanks};

use std::alloc::{AllocError, Global};

/// The index of each node, below a size, in an order.
pub(crate) fn ranks_in(
    alloc: Global,
    order: &[usize],
    size: usize,
) -> Result<Vec<usize>, AllocError>
    requires within { (node : ℕ) → Contains order.now node → node < size }
    requires distinct { AreDifferent order.now }
    ensures long { IfOk result (λ ranks. length ranks.items ≡ size) }
    ensures ranks { IfOk result (λ ranks. AreRanks order.now ranks.items) }
{
    let mut ranks = vec![in alloc; 0; size]?;
    for (rank, node) in order.iter().enumerate() {
        ranks[*node] = rank;
    }
    Ok(ranks)
}
