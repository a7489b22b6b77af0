//! That the analysis of a deck isn't too large.

ghost use Rattle.std.specs.Prelude.{◌≤◌, IfErr, OnOk};
ghost use Rattle.flow_graph.specs.Flow.{executed_in, notes_of};
ghost use Rattle.flow_graph.specs.Accepted as said;
ghost use Rattle.flow_graph.specs.Accepted.{capped};
ghost use Rattle.flow_acceptance.specs.Size.{IsTooMuch};

use crate::counts::product_of;
use flow_graph::{Flow, Refusal};

/// The most that executed words times counts may be.
const LARGEST_SIZE: u128 = 4_000_000;

/// Checks that executed words times counts is 4,000,000 at most.
///
/// # Errors
///
/// [`Refusal::TooLarge`] with the product; with 2^127 where that is more.
pub fn check_small(flow: &Flow<'_>) -> Result<(), Refusal>
    ensures small { OnOk result (said.product_of (executed_in flow.now) (notes_of flow.now).marks
        ≤ 4000000) }
    ensures large { IfErr result
        (IsTooMuch (capped (said.product_of (executed_in flow.now) (notes_of flow.now).marks))) }
{
    let product = product_of(flow.executed().len(), flow.notes().marks());
    if product > LARGEST_SIZE {
        return Err(Refusal::TooLarge(product));
    }
    Ok(())
}
