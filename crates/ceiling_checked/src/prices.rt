//! Prices of marks with a total, and such as are surely high enough: by the order of the nodes.

ghost use Rattle.std.specs.Prelude.{◌≡◌, ◌*◌, ◌^◌, ◌<◌, ◌≤◌, ◌==◌, if◌then◌else◌, length, All};
ghost use Rattle.std.specs.Prelude.{Contains, ℕ};
ghost use Rattle.std.specs.Prelude.{IfOk, MatchOption};
ghost use Rattle.read_decks.specs.InDeck.{loads_in, start_in};
ghost use Rattle.base_notes.specs.declared.times.Times as tables;
ghost use Rattle.base_graphs.specs.Graph.{height};
ghost use Rattle.flow_graph.specs.Accepted.{capped, IsAdmitted};
ghost use Rattle.flow_graph.specs.Executed.{AreAllNodes};
ghost use Rattle.flow_graph.specs.Flow.{deck_of, nodes_of, notes_of, executed_in, of_flow};
ghost use Rattle.flow_graph.specs.SettingOf.{setting};
ghost use Rattle.flow_acceptance.specs.OrderedFlow.{indices_in_order, nodes_in_order};
ghost use Rattle.flow_acceptance.specs.Free.{IsNodeOrder};
ghost use Rattle.ceiling_rows.specs.Steps.{TakesAtMost};
ghost use Rattle.ceiling_checked.specs.InRounds as said;
ghost use Rattle.ceiling_checked.specs.Right.{ArePrices};
ghost use Rattle.ceiling_checked.specs.Size.{size_of};
ghost use Rattle.ceiling_checked.specs.Sized.{IsSizeBy};

use crate::size::Size;
use base_notes::Mark;
use flow_acceptance::OrderedFlow;
use flow_acceptance::counts::{LARGEST, product};
use std::alloc::{AllocError, Global};

/// A price for each mark, and the total.
#[derive(Drop)]
pub struct Prices {
    pub prices: Vec<u128>,
    pub total: u128,
}

/// How far before the end of the order a node stands.
fn height_of(order: &[usize], node: usize) -> usize
    ensures value { result ≡ height order.now node }
    ensures low { result ≤ length order.now }
{
    for (index, one) in order.iter().enumerate() {
        if *one == node {
            return order.len() - index;
        }
    }
    0
}

/// What a pass of a mark costs, so much for each pass in a round of it: nothing where it may never
/// be passed.
fn price_of(unit: u128, mark: &Mark, round: u128) -> u128
    ensures { result ≡ (if mark.now.most == 0 then 0 else capped (unit * round)) }
{
    if mark.most == 0 {
        return 0;
    }
    product(unit, round)
}

/// What a pass of each mark costs, so much for each pass in a round of it.
fn priced(
    alloc: Global,
    unit: u128,
    marks: &[Mark],
    rounds: &[u128],
) -> Result<Vec<u128>, AllocError>
    requires { length rounds.now ≡ length marks.now }
    ensures { IfOk result (λ prices.
        prices.items ≡ said.priced capped unit marks.now rounds.now) }
{
    let mut prices = Vec::new(alloc);
    for (index, mark) in marks.iter().enumerate() {
        prices.push(price_of(unit, mark, rounds[index]))?;
    }
    Ok(prices)
}

/// Prices by the order of the nodes: for each pass in a round of a mark, as much as it takes to go
/// through each of them once, where no step takes more than `longest` word times.
/// A mark that may never be passed costs nothing. `None` where the size is 2^127 or more.
pub fn prices_by_order(
    alloc: Global,
    accepted: &OrderedFlow<'_>,
    longest: u32,
    size: &Size,
) -> Result<Option<Prices>, AllocError>
    requires admitted { IsAdmitted (loads_in (deck_of accepted.now.flow))
        (notes_of accepted.now.flow) (start_in (deck_of accepted.now.flow))
        (executed_in accepted.now.flow) }
    requires nodes { of_flow AreAllNodes accepted.now.flow (nodes_of accepted.now.flow) }
    requires within { (index : ℕ) → Contains (indices_in_order accepted.now) index
        → index < length (nodes_of accepted.now.flow) }
    requires order { IsNodeOrder (loads_in (deck_of accepted.now.flow))
        (notes_of accepted.now.flow) (nodes_of accepted.now.flow) (nodes_in_order accepted.now) }
    requires sized { IsSizeBy (notes_of accepted.now.flow).marks
        (length (nodes_of accepted.now.flow)) longest size.now }
    ensures { IfOk result (λ made. (times : tables.Times) → TakesAtMost
        (setting (deck_of accepted.now.flow) times (notes_of accepted.now.flow))
        (executed_in accepted.now.flow) longest
        → let size = size_of (notes_of accepted.now.flow).marks
        (length (nodes_of accepted.now.flow)) longest in
        MatchOption made (2 ^ 127 ≤ size) (λ found. ArePrices
        (setting (deck_of accepted.now.flow) times (notes_of accepted.now.flow))
        found.prices.items found.total × (found.total ≤ size)
        × All (λ price. price ≤ size) found.prices.items)) }
{
    if size.whole >= LARGEST {
        return Ok(None);
    }
    let flow = accepted.flow();
    let marks = flow.notes().marks();
    let height = height_of(accepted.nodes(), 0) as u128;
    Ok(Some(Prices {
        prices: priced(alloc, size.unit, marks, &size.rounds)?,
        total: height * u128::from(longest) + product(size.unit, size.passes),
    }))
}
