//! The ceiling of a deck: prices that were found and checked, or else such as are surely high
//! enough, and what they come to.

ghost use Rattle.std.specs.Prelude.{◌≡◌, ◌⊎◌, ◌^◌, ◌≤◌, Some, None, IfOk, IfErr, IfSome, IfNone};
ghost use Rattle.std.specs.Prelude.{◌<◌, ℕ, length, All, Contains, MatchOption};
ghost use Rattle.read_decks.specs.InDeck.{loads_in, start_in};
ghost use Rattle.base_notes.specs.declared.times.Times as tables;
ghost use Rattle.flow_graph.specs.Accepted as said;
ghost use Rattle.flow_graph.specs.Accepted.{capped, IsAdmitted};
ghost use Rattle.flow_graph.specs.Executed.{AreAllNodes};
ghost use Rattle.flow_graph.specs.Flow.{deck_of, nodes_of, notes_of, executed_in, of_flow};
ghost use Rattle.flow_graph.specs.Flow.{AreFound};
ghost use Rattle.flow_graph.specs.SettingOf.{setting};
ghost use Rattle.flow_acceptance.specs.OrderedFlow.{indices_in_order, nodes_in_order};
ghost use Rattle.flow_acceptance.specs.Free.{IsNodeOrder};
ghost use Rattle.ceiling_rows.specs.Rows.{AreRows};
ghost use Rattle.ceiling_checked.specs.CeilingOf.{IsCeilingOf, IsCeilingRefusal};
ghost use Rattle.ceiling_checked.specs.Right.{ArePrices};
ghost use Rattle.ceiling_checked.specs.Size.{IsWithinSize};

use crate::answer::Ceiling;
use crate::certificate::Certificate;
use crate::longest::longest_of;
use crate::prices::{Prices, prices_by_order};
use crate::size::Size;
use base_notes::{Mark, Notes, Times};
use base_words::REVOLUTION;
use ceiling_optimum::Budget;
use ceiling_prices::find;
use ceiling_rows::{Row, Sites, rows_of, site_rows};
use flow_acceptance::OrderedFlow;
use flow_acceptance::counts::product_of;
use flow_graph::Refusal;
use read_decks::Deck;
use std::alloc::{AllocError, Global};

/// How many steps the searches take at most.
pub const SEARCHES: u64 = 40_000_000;

/// The prices with the lower total, where there are two.
fn lower_of(found: Option<Prices>, by_order: Option<Prices>) -> Option<Prices>
    ensures none { IfNone result ((found ≡ None) × (by_order ≡ None)) }
    ensures some { IfSome result (λ prices. (by_order ≡ Some prices) ⊎ ((found ≡ Some prices)
        × IfSome by_order (λ other. prices.total ≤ other.total))) }
{
    let Some(found) = found else {
        return by_order;
    };
    match by_order {
        Some(other) if other.total < found.total => Some(other),
        _ => Some(found),
    }
}

/// Prices that were found, where none of them is above the size.
fn within(found: Option<Prices>, size: &Size) -> Option<Prices>
    ensures none { IfNone result (IfSome found (λ prices.
        ¬ All (λ price. price ≤ size.now.whole) prices.prices.items)) }
    ensures some { IfSome result (λ prices. (found ≡ Some prices)
        × All (λ price. price ≤ size.now.whole) prices.prices.items) }
{
    match found {
        Some(found) if size.has(&found.prices) => Some(found),
        _ => None,
    }
}

/// Prices that the search finds by the rows of all sites, where they are a certificate.
fn found_prices(
    alloc: Global,
    accepted: &OrderedFlow<'_>,
    rows: &[Option<Row>],
) -> Result<Option<Prices>, AllocError>
    requires nodes { of_flow AreAllNodes accepted.now.flow (nodes_of accepted.now.flow) }
    requires found { of_flow AreFound accepted.now.flow (executed_in accepted.now.flow) }
    ensures { IfOk result (λ made. (times : tables.Times)
        → let g = setting (deck_of accepted.now.flow) times (notes_of accepted.now.flow) in
        AreRows g (executed_in accepted.now.flow) rows.now
        → IfSome made (λ found. ArePrices g found.prices.items found.total)) }
{
    let flow = accepted.flow();
    let marks = flow.notes().marks();
    let sites = Sites::of(alloc, flow)?;
    let rows = site_rows(alloc, flow, &sites, rows)?;
    let Some(start) = sites.number(0, u64::from(flow.deck().start().number) % REVOLUTION) else {
        return Ok(None);
    };
    let order = sites.in_order(alloc, accepted.nodes())?;
    let mut budget = Budget::of(SEARCHES);
    let found = find(alloc, &rows, &order, start, marks, &mut budget)?;
    Ok(Certificate::from(found).checked(marks, &rows, start))
}

/// Prices and a total of an admitted deck: those that the search finds, where they are a
/// certificate and none is above the size, or those by the order of the nodes.
fn prices_of(
    alloc: Global,
    accepted: &OrderedFlow<'_>,
    times: &Times,
) -> Result<Option<Prices>, AllocError>
    requires admitted { IsAdmitted (loads_in (deck_of accepted.now.flow))
        (notes_of accepted.now.flow) (start_in (deck_of accepted.now.flow))
        (executed_in accepted.now.flow) }
    requires nodes { of_flow AreAllNodes accepted.now.flow (nodes_of accepted.now.flow) }
    requires within { (index : ℕ) → Contains (indices_in_order accepted.now) index
        → index < length (nodes_of accepted.now.flow) }
    requires order { IsNodeOrder (loads_in (deck_of accepted.now.flow))
        (notes_of accepted.now.flow) (nodes_of accepted.now.flow) (nodes_in_order accepted.now) }
    ensures made { IfOk result (λ made.
        let g = setting (deck_of accepted.now.flow) times.now (notes_of accepted.now.flow) in
        let nodes = nodes_of accepted.now.flow in
        MatchOption made (IsWithinSize g nodes (2 ^ 127)) (λ found.
        ArePrices g found.prices.items found.total × IsWithinSize g nodes found.total
        × All (IsWithinSize g nodes) found.prices.items)) }
    ensures few { IfOk result (λ made. length (nodes_of accepted.now.flow) < 2 ^ 64) }
{
    let flow = accepted.flow();
    let rows = rows_of(alloc, flow, times)?;
    let longest = longest_of(&rows);
    let size = Size::of(alloc, flow, longest)?;
    let by_order = prices_by_order(alloc, accepted, longest, &size)?;
    let found = within(found_prices(alloc, accepted, &rows)?, &size);
    Ok(lower_of(found, by_order))
}

/// Executed locations times counts; 2^127 where that is more.
fn product_of_flow(accepted: &OrderedFlow<'_>, marks: &[Mark]) -> u128
    ensures { result ≡ capped (said.product_of (executed_in accepted.now.flow) marks.now) }
{
    product_of(accepted.flow().executed().len(), marks)
}

/// A number of word times that no run which keeps to the notes, and no walk, ever uses more than,
/// whatever the marks' counts are, with a price for each pass of a mark.
///
/// # Errors
///
/// Those of [`accept`](flow_acceptance::accept) but [`Refusal::HasCalls`], except that
/// [`Refusal::TooLarge`] comes last, and only where the nodes of the flow graph, times the longest
/// step from one with the next search, times one more than all passes of marks that a walk can
/// have, are 2^127 or more; it has the product of executed words and counts, or 2^127 where that is
/// more.
pub fn ceiling(alloc: Global, deck: &Deck, times: &Times, notes: &Notes) -> Result<Ceiling, Refusal>
    ensures given { IfOk result (IsCeilingOf deck.now times.now notes.now) }
    ensures refused { IfErr result (IsCeilingRefusal deck.now times.now notes.now) }
{
    let marks = notes.marks();
    let accepted = OrderedFlow::of_any_size(alloc, deck, notes)?;
    match prices_of(alloc, &accepted, times)? {
        Some(found) => Ok(Ceiling::new(found.prices, found.total)),
        None => Err(Refusal::TooLarge(product_of_flow(&accepted, marks))),
    }
}
