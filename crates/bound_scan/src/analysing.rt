//! The analysis: what it promises of the bound, the walk and the table, and the way to them.

ghost use Rattle.std.specs.Prelude.{◌≡◌, ◌<◌, length, IfOk, IfErr};
ghost use Rattle.read_decks.specs.InDeck.{loads_in, start_in};
ghost use Rattle.flow_acceptance.specs.Acceptance.{IsRefusal};
ghost use Rattle.flow_acceptance.specs.OrderedFlow.{in_order};
ghost use Rattle.bound_scan.specs.AnalysisOf.{IsAnalysis, IsAnalysisOf, words_of};
ghost use Rattle.bound_scan.specs.KeysOf.{AreKeys, CanHaveKeys, order_in, setting_of, setting_with};

use crate::analysis::Analysis;
use crate::counted_analysis::CountedAnalysis;
use crate::keys::Keys;
use crate::scan::Scan;
use crate::scan::steps::Steps;
use base_notes::{Notes, Times};
use flow_acceptance::OrderedFlow;
use flow_graph::Refusal;
use read_decks::Deck;
use std::alloc::{AllocError, Global};
use std::marker::Brand;
use std::sync::ledger::{Blank, Ledger};

/// The analysis by the keys of an accepted deck.
fn analysis_by<'a, L: Ledger>(
    alloc: Global,
    times: &'a Times,
    keys: &'a Keys<'a>,
    steps: Steps<L>,
) -> Result<CountedAnalysis<L>, AllocError>
    requires none { steps ≡ 0 }
    requires keys { AreKeys keys.now }
    ensures is { IfOk result (λ counted.
        IsAnalysis (setting_with keys.now times.now) counted.analysis) }
    ensures words { IfOk result (λ counted.
        words_of counted.analysis ≡ length (order_in keys.now)) }
{
    let leaps = keys.leaps(alloc, times)?;
    let scan: Scan<'_, L> = Scan::of(alloc, times, keys, &leaps, steps)?;
    let trace = scan.walk(alloc)?;
    let counted = CountedAnalysis::of(alloc, scan.into_found(), trace.visits, trace.passed)?;
    Ok(counted)
}

/// The analysis of an accepted flow.
fn analysis_of<'a, L: Ledger>(
    alloc: Global,
    accepted: &'a OrderedFlow<'a>,
    times: &'a Times,
    steps: Steps<L>,
) -> Result<CountedAnalysis<L>, AllocError>
    requires none { steps ≡ 0 }
    requires keys { CanHaveKeys accepted.now }
    ensures is { IfOk result (λ counted.
        IsAnalysis (setting_of accepted.now times.now) counted.analysis) }
    ensures words { IfOk result (λ counted.
        words_of counted.analysis ≡ length (in_order accepted.now)) }
{
    // by match: the checker has no proof yet for `?` on what borrows and is dropped here
    let keys: Result<Keys<'a>, AllocError> = Keys::of(alloc, accepted);
    let Ok(keys) = keys else {
        return Err(AllocError);
    };
    analysis_by(alloc, times, &keys, steps)
}

/// As [`analyse`], on a ledger of the caller's, which is handed out with the analysis: as many ends
/// of hops stand on it as [`turns`](Analysis::turns) says.
///
/// # Errors
///
/// Those of [`analyse`].
pub fn analyse_counting<L: Ledger>(
    alloc: Global,
    deck: &Deck,
    times: &Times,
    notes: &Notes,
    blank: Blank,
) -> Result<CountedAnalysis<L>, Refusal>
    requires name { blank.name ≡ L.name }
    requires parts { blank.parts ≡ L.parts }
    requires some { 0 < L.parts }
    ensures analysed { IfOk result (λ counted.
        IsAnalysisOf deck.now times.now notes.now counted.analysis) }
    ensures refused { IfErr result (IsRefusal (loads_in deck.now) notes.now (start_in deck.now)) }
{
    // What `marks` promises: the marks are 64 at most.
    let _marks = notes.marks();
    let accepted = OrderedFlow::of(alloc, deck, notes)?;
    // What `location_set` promises: no location is there twice.
    let _executed = accepted.flow().executed();
    let counted = analysis_of(alloc, &accepted, times, Steps::begin(blank))?;
    Ok(counted)
}

/// The analysis that [`analyse_counting`] gives, without its ledger.
fn analyse_from<L: Ledger>(
    alloc: Global,
    deck: &Deck,
    times: &Times,
    notes: &Notes,
    blank: Blank,
) -> Result<Analysis, Refusal>
    requires name { blank.name ≡ L.name }
    requires parts { blank.parts ≡ L.parts }
    requires some { 0 < L.parts }
    ensures analysed { IfOk result (IsAnalysisOf deck.now times.now notes.now) }
    ensures refused { IfErr result (IsRefusal (loads_in deck.now) notes.now (start_in deck.now)) }
{
    let counted: CountedAnalysis<L> = analyse_counting(alloc, deck, times, notes, blank)?;
    Ok(counted.into_analysis())
}

/// The analysis of a deck with its timing table and notes: the bound, a walk that reaches it, and
/// the table of worst times.
///
/// # Errors
///
/// Where the deck with its notes isn't accepted, the reason ([`accept`](crate::accept));
/// [`Refusal::Memory`] where there is no memory.
pub fn analyse(
    alloc: Global,
    deck: &Deck,
    times: &Times,
    notes: &Notes,
) -> Result<Analysis, Refusal>
    ensures analysed { IfOk result (IsAnalysisOf deck.now times.now notes.now) }
    ensures refused { IfErr result (IsRefusal (loads_in deck.now) notes.now (start_in deck.now)) }
{
    analyse_from::<Brand>(alloc, deck, times, notes, Blank::new(1))
}
