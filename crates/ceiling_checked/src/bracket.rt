//! A ceiling of a deck, with a walk beside it.

ghost use Rattle.std.specs.Prelude.{◌≡◌, ◌≤◌, ◌⊎◌, IfOk, IfErr, IfSome};
ghost use Rattle.flow_graph.specs.Executed.{AreAllNodes};
ghost use Rattle.flow_graph.specs.Flow.{deck_of, executed_in, nodes_of, notes_of, of_flow};
ghost use Rattle.flow_graph.specs.Flow.{AreFound};
ghost use Rattle.flow_graph.specs.SettingOf.{setting};
ghost use Rattle.ceiling_rounds.specs.InRounds.{total_of, IsInRoundsOf};
ghost use Rattle.ceiling_rounds.specs.OneHop.{NoWalkOfOneHopTakesLonger};
ghost use Rattle.ceiling_checked.specs.CeilingOf.{IsCeilingRefusal};
ghost use Rattle.ceiling_checked.specs.BracketOf.{IsBracketOf};

use crate::answer::Ceiling;
use crate::finding::{SEARCHES, ceiling};
use base_notes::{Notes, Times};
use base_words::REVOLUTION;
use ceiling_optimum::Budget;
use ceiling_pieces::find;
use ceiling_plans::{Owed, Task};
use ceiling_rounds::{InRounds, Setting};
use ceiling_rows::{SiteRow, Sites, rows_of, site_rows};
use flow_acceptance::OrderedFlow;
use flow_graph::Refusal;
use read_decks::Deck;
use std::alloc::{AllocError, Global};

/// A ceiling, and a walk of the flow graph: the worst time is no more than the one, and no less
/// than the other takes.
#[derive(Debug, Drop)]
pub struct Bracket {
    pub ceiling: Ceiling,
    pub walk: InRounds,
}

/// The longer of two walks that may have been found.
fn longer(one: Option<InRounds>, other: Option<InRounds>) -> Option<InRounds>
    ensures { (result ≡ one) ⊎ (result ≡ other) }
{
    let Some(first) = one else {
        return other;
    };
    match other {
        Some(second) if second.total() > first.total() => Some(second),
        _ => Some(first),
    }
}

/// A walk that is strung together from the ways by which the least prices are found. `None` where
/// none is.
fn strung_by(
    alloc: Global,
    by: &Setting<'_>,
    rows: &[SiteRow],
    order: &[usize],
    start: usize,
    most: u128,
) -> Result<Option<InRounds>, AllocError>
    ensures { IfOk result (λ made. IfSome made
        (IsInRoundsOf by.now.deck.now by.now.times.now by.now.notes.now)) }
{
    let marks = by.notes.marks();
    let mut budget = Budget::of(SEARCHES);
    let found = ceiling_prices::find(alloc, rows, order, start, marks, &mut budget)?;
    let owed = Owed {
        prices: &found.prices,
        regions: &found.regions,
        levels: &found.levels,
    };
    let task = Task::new(by.times, marks, rows, start, owed, most);
    let strung = ceiling_plans::find(alloc, task, &found.shares, &mut budget)?;
    by.weigh(alloc, strung.pieces)
}

/// A walk, as long as the search finds one: by the rows of sites, by an order of them in which
/// every edge without a mark goes on, and from that of the start. `None` where it finds none.
fn found_by(
    alloc: Global,
    by: &Setting<'_>,
    rows: &[SiteRow],
    order: &[usize],
    start: usize,
    most: u128,
) -> Result<Option<InRounds>, AllocError>
    ensures { IfOk result (λ made. IfSome made
        (IsInRoundsOf by.now.deck.now by.now.times.now by.now.notes.now)) }
{
    let pieces = find(alloc, by.times, by.notes.marks(), rows, order, start)?;
    let found = by.weigh(alloc, pieces)?;
    if reaches(&found, most) {
        return Ok(found);
    }
    let strung = strung_by(alloc, by, rows, order, start, most)?;
    Ok(longer(found, strung))
}

/// Whether a walk takes as long as this.
fn reaches(walk: &Option<InRounds>, most: u128) -> bool {
    match walk {
        Some(walk) => walk.total() >= most,
        None => false,
    }
}

/// The same, where the deck with its notes is admitted.
fn found_along(
    alloc: Global,
    by: &Setting<'_>,
    accepted: &OrderedFlow<'_>,
    most: u128,
) -> Result<Option<InRounds>, AllocError>
    requires nodes { of_flow AreAllNodes accepted.now.flow (nodes_of accepted.now.flow) }
    requires found { of_flow AreFound accepted.now.flow (executed_in accepted.now.flow) }
    ensures { IfOk result (λ made. IfSome made
        (IsInRoundsOf by.now.deck.now by.now.times.now by.now.notes.now)) }
{
    let flow = accepted.flow();
    let sites = Sites::of(alloc, flow)?;
    let rows = rows_of(alloc, flow, by.times)?;
    let rows = site_rows(alloc, flow, &sites, &rows)?;
    let order = sites.in_order(alloc, accepted.nodes())?;
    let angle = u64::from(flow.deck().start().number) % REVOLUTION;
    match sites.number(0, angle) {
        Some(start) => found_by(alloc, by, &rows, &order, start, most),
        None => Ok(None),
    }
}

/// The longest walk of one hop of an admitted deck; without a hop where there is none.
fn one_hop(alloc: Global, times: &Times, accepted: &OrderedFlow<'_>) -> Result<InRounds, AllocError>
    requires found { of_flow AreFound accepted.now.flow (executed_in accepted.now.flow) }
    ensures right { IfOk result (IsInRoundsOf (deck_of accepted.now.flow) times.now
        (notes_of accepted.now.flow)) }
    ensures longest { IfOk result (λ walk. NoWalkOfOneHopTakesLonger
        (setting (deck_of accepted.now.flow) times.now (notes_of accepted.now.flow))
        (total_of walk)) }
{
    let flow = accepted.flow();
    let (deck, notes) = (flow.deck(), flow.notes());
    let by = Setting { deck, times, notes };
    let hops = flow.hops(deck.start());
    by.longest_of_one_hop(alloc, hops)
}

/// Of a walk that may have been found and the longest of one hop, the one that takes longer.
fn longer_of(found: Option<InRounds>, one_hop: InRounds) -> InRounds
    ensures either { (result ≡ one_hop) ⊎ (found ≡ Some result) }
    ensures longer { total_of one_hop ≤ total_of result }
    ensures no_shorter { IfSome found (λ walk. total_of walk ≤ total_of result) }
{
    match found {
        Some(found) if found.total() >= one_hop.total() => found,
        _ => one_hop,
    }
}

/// A ceiling of a deck with its timing table and notes, with a walk in rounds, each hop as long as
/// it can be. No walk takes more than the ceiling; where this one takes as long, it is a worst one.
/// It takes no less than any walk of one hop.
///
/// # Errors
///
/// Those of [`ceiling`].
pub fn reached(alloc: Global, deck: &Deck, times: &Times, notes: &Notes) -> Result<Bracket, Refusal>
    ensures given { IfOk result (IsBracketOf deck.now times.now notes.now) }
    ensures refused { IfErr result (IsCeilingRefusal deck.now times.now notes.now) }
{
    let ceiling = ceiling(alloc, deck, times, notes)?;
    let accepted = OrderedFlow::of_any_size(alloc, deck, notes)?;
    let by = Setting { deck, times, notes };
    let found = found_along(alloc, &by, &accepted, ceiling.total())?;
    let walk = longer_of(found, one_hop(alloc, times, &accepted)?);
    Ok(Bracket { ceiling, walk })
}
