//! The words of the deck that nothing comes to.

ghost use Rattle.std.specs.Prelude.{◌≡◌, ◌+◌, ◌++◌, ◌≤◌, ◌<◌, ◌-◌, IfOk, OnOk, map, flat_map};
ghost use Rattle.std.specs.List.{range_with_len};
ghost use Rattle.read_decks.specs.InDeck.{loads_in};
ghost use Rattle.flow_graph.specs.Flow.{executed_in};
ghost use Rattle.check_findings.specs.Finding.{idle};
ghost use Rattle.check_findings.specs.FindingOf.{seen};
ghost use Rattle.check_findings.specs.Idle as said;
ghost use Rattle.check_findings.specs.Idle.{idle_at};
ghost use Rattle.check_findings.specs.NamedOf.{AreNamed, is_idle_in};

use crate::edges::is_executed;
use crate::finding::Finding;
use crate::named::Named;
use base_words::Location;
use flow_graph::Flow;
use std::alloc::{AllocError, Global};

/// Whether the deck loads a word at this location that is neither executed nor named.
fn is_idle(flow: &Flow<'_>, named: &Named, location: Location) -> bool
    requires { AreNamed flow.now named.now }
    ensures { result ≡ is_idle_in flow.now location.number }
{
    flow.deck().word(location).is_some()
        && !is_executed(flow, location)
        && !named.has(location.number())
}

/// The location on the drum with this number.
fn on_drum(number: u16) -> Location
    requires { number < 2000 }
    ensures { result.number ≡ number }
{
    let Some(location) = Location::new(number) else {
        unreachable!()
    };
    location
}

/// Whether the word with this number is idle, and the one before it isn't.
fn is_first(flow: &Flow<'_>, named: &Named, number: u16) -> bool
    requires named { AreNamed flow.now named.now }
    requires drum { number < 2000 }
    ensures { result ≡ said.is_first (is_idle_in flow.now) number }
{
    is_idle(flow, named, on_drum(number))
        && !(number > 0 && is_idle(flow, named, on_drum(number - 1)))
}

/// How many words are idle from this number on, one after the other.
fn idle_from(flow: &Flow<'_>, named: &Named, from: u16) -> u16
    requires named { AreNamed flow.now named.now }
    requires drum { from < 2000 }
    ensures count { result ≡ said.idle_from (is_idle_in flow.now) from }
    ensures drum { from + result ≤ 2000 }
{
    let mut count = 0;
    for number in from..Location::DRUM {
        if !is_idle(flow, named, on_drum(number)) {
            break;
        }
        count += 1;
    }
    count
}

/// Adds so many idle words from this number on, each by itself.
fn add_each(found: &mut Vec<Finding>, from: u16, below: u16) -> Result<(), AllocError>
    requires { below ≤ 2000 }
    ensures { OnOk result (map seen found.new.items ≡ map seen found.old.items
        ++ map (λ place. idle place place) (range_with_len from (below - from))) }
{
    for number in from..below {
        let location = on_drum(number);
        found.push(Finding::Idle {
            first: location,
            last: location,
        })?;
    }
    Ok(())
}

/// Adds the idle words of which the one with this number is the first, if it is so.
fn add_idle(
    found: &mut Vec<Finding>,
    flow: &Flow<'_>,
    named: &Named,
    number: u16,
) -> Result<(), AllocError>
    requires named { AreNamed flow.now named.now }
    requires drum { number < 2000 }
    ensures { OnOk result (map seen found.new.items ≡ map seen found.old.items
        ++ idle_at (loads_in flow.now.deck.now) flow.now.notes.now (executed_in flow.now) number) }
{
    if !is_first(flow, named, number) {
        return Ok(());
    }
    let count = idle_from(flow, named, number);
    if count < 3 {
        return add_each(found, number, number + count);
    }
    found.push(Finding::Idle {
        first: on_drum(number),
        last: on_drum(number + count - 1),
    })?;
    Ok(())
}

/// Adds the words that are idle of these locations, from a number on and below another one.
fn add_all_idle(
    found: &mut Vec<Finding>,
    flow: &Flow<'_>,
    named: &Named,
    from: u16,
    below: u16,
) -> Result<(), AllocError>
    requires named { AreNamed flow.now named.now }
    requires drum { below ≤ 2000 }
    ensures { OnOk result (map seen found.new.items ≡ map seen found.old.items
        ++ flat_map (idle_at (loads_in flow.now.deck.now) flow.now.notes.now
        (executed_in flow.now)) (range_with_len from (below - from))) }
{
    for number in from..below {
        add_idle(found, flow, named, number)?;
    }
    Ok(())
}

/// The words on the drum that the deck loads, and that are neither executed nor named by an
/// executed instruction, by their locations; three and more that follow one another at once.
pub fn idle_words(alloc: Global, flow: &Flow<'_>) -> Result<Vec<Finding>, AllocError>
    ensures { IfOk result (λ found. map seen found.items
        ≡ said.idle_words (loads_in flow.now.deck.now) flow.now.notes.now
        (executed_in flow.now)) }
{
    let named = Named::of(alloc, flow)?;
    let mut found = Vec::new(alloc);
    add_all_idle(&mut found, flow, &named, 0, Location::DRUM)?;
    Ok(found)
}
