//! The bound alone: the scan of an analysis, with no walk made of it.

ghost use Rattle.std.specs.Prelude.{◌≡◌, ◌^◌, ◌<◌, IfOk, IfErr, length};
ghost use Rattle.read_decks.specs.InDeck.{loads_in, start_in};
ghost use Rattle.flow_graph.specs.SettingOf.{setting};
ghost use Rattle.flow_acceptance.specs.Acceptance.{IsRefusal};
ghost use Rattle.flow_acceptance.specs.OrderedFlow.{in_order};
ghost use Rattle.bound_scan.specs.BoundOf.{IsBound};
ghost use Rattle.bound_scan.specs.Counted.{HasFound, IsCounted};
ghost use Rattle.bound_scan.specs.FoundOf.{found_bound};
ghost use Rattle.bound_scan.specs.KeysOf.{AreKeys, CanHaveKeys, order_in, setting_of, setting_with};

use crate::keys::Keys;
use crate::scan::Scan;
use crate::scan::found::Found;
use crate::scan::steps::Steps;
use base_notes::{Notes, Times};
use flow_acceptance::OrderedFlow;
use flow_graph::Refusal;
use read_decks::Deck;
use std::alloc::{AllocError, Global};
use std::marker::Brand;
use std::sync::ledger::{Blank, Ledger};

/// What is found by the keys of an accepted deck.
fn found_by<'a, L: Ledger>(
    alloc: Global,
    times: &'a Times,
    keys: &'a Keys<'a>,
    steps: Steps<L>,
) -> Result<Found<L>, AllocError>
    requires none { steps ≡ 0 }
    requires keys { AreKeys keys.now }
    ensures { IfOk result (HasFound (setting_with keys.now times.now)
        (length (order_in keys.now))) }
{
    let leaps = keys.leaps(alloc, times)?;
    let scan = Scan::of(alloc, times, keys, &leaps, steps)?;
    Ok(scan.into_found())
}

/// What is found of an accepted flow.
fn found_of<'a, L: Ledger>(
    alloc: Global,
    accepted: &'a OrderedFlow<'a>,
    times: &'a Times,
    steps: Steps<L>,
) -> Result<Found<L>, AllocError>
    requires none { steps ≡ 0 }
    requires keys { CanHaveKeys accepted.now }
    ensures { IfOk result (HasFound (setting_of accepted.now times.now)
        (length (in_order accepted.now))) }
{
    // by match: the checker has no proof yet for `?` on what borrows and is dropped here
    let keys: Result<Keys<'a>, AllocError> = Keys::of(alloc, accepted);
    let Ok(keys) = keys else {
        return Err(AllocError);
    };
    found_by(alloc, times, &keys, steps)
}

/// As [`bound`], on a ledger of the caller's, which is handed out with the bound and the table that
/// was raised: as many ends of hops stand on it as the table's entries have hops.
///
/// # Errors
///
/// Those of [`bound`].
pub fn bound_counting<L: Ledger>(
    alloc: Global,
    deck: &Deck,
    times: &Times,
    notes: &Notes,
    blank: Blank,
) -> Result<Found<L>, Refusal>
    requires name { blank.name ≡ L.name }
    requires parts { blank.parts ≡ L.parts }
    requires some { 0 < L.parts }
    ensures bound { IfOk result (λ found.
        IsBound (setting deck.now times.now notes.now) (found_bound found)) }
    ensures below { IfOk result (λ found. found_bound found < 2 ^ 50) }
    ensures counted { IfOk result (IsCounted (setting deck.now times.now notes.now)) }
    ensures refused { IfErr result (IsRefusal (loads_in deck.now) notes.now (start_in deck.now)) }
{
    // What `marks` promises: the marks are 64 at most.
    let _marks = notes.marks();
    let accepted = OrderedFlow::of(alloc, deck, notes)?;
    // What `location_set` promises: no location is there twice.
    let _executed = accepted.flow().executed();
    let found = found_of(alloc, &accepted, times, Steps::begin(blank))?;
    Ok(found)
}

/// The bound that [`bound_counting`] finds, without its ledger.
fn bound_from<L: Ledger>(
    alloc: Global,
    deck: &Deck,
    times: &Times,
    notes: &Notes,
    blank: Blank,
) -> Result<u64, Refusal>
    requires name { blank.name ≡ L.name }
    requires parts { blank.parts ≡ L.parts }
    requires some { 0 < L.parts }
    ensures bound { IfOk result (IsBound (setting deck.now times.now notes.now)) }
    ensures below { IfOk result (λ bound. bound < 2 ^ 50) }
    ensures refused { IfErr result (IsRefusal (loads_in deck.now) notes.now (start_in deck.now)) }
{
    let found: Found<L> = bound_counting(alloc, deck, times, notes, blank)?;
    Ok(found.bound())
}

/// The bound of a deck with its timing table and notes, in word times, below 2^50: no run that
/// keeps to the notes ever uses more, and some walk uses exactly as many. It is the bound of
/// [`analyse`](crate::analyse), found without making a walk.
///
/// # Errors
///
/// Those of [`analyse`](crate::analyse).
pub fn bound(alloc: Global, deck: &Deck, times: &Times, notes: &Notes) -> Result<u64, Refusal>
    ensures bound { IfOk result (IsBound (setting deck.now times.now notes.now)) }
    ensures below { IfOk result (λ bound. bound < 2 ^ 50) }
    ensures refused { IfErr result (IsRefusal (loads_in deck.now) notes.now (start_in deck.now)) }
{
    bound_from::<Brand>(alloc, deck, times, notes, Blank::new(1))
}
