//! The words that the instructions of a location alter: those of the executed locations without a
//! list that they write.

ghost use Rattle.std.specs.Prelude.{◌≡◌, ◌<◌, [], ◌∷◌, IfOk, OnOk, flat_map};
ghost use Rattle.read_decks.specs.InDeck.{loads_in};
ghost use Rattle.base_notes.specs.Allowed.{matching};
ghost use Rattle.flow_graph.specs.Executed.{with_new};
ghost use Rattle.flow_graph.specs.Flow.{executed_in};
ghost use Rattle.flow_graph.specs.Found.{places_of};
ghost use Rattle.check_findings.specs.FoundAt as said;
ghost use Rattle.check_findings.specs.FoundAt.{altered_by};
ghost use Rattle.check_findings.specs.FindingOf.{AreFixed};

use base_notes::Pattern;
use base_words::{Instruction, Location};
use flow_acceptance::fixed::Fixed;
use flow_graph::Flow;
use flow_graph::alike::same_writes_end;
use flow_graph::location_set::LocationSet;
use flow_graph::patterns::{Patterns, instruction_of};
use machine_steps::writes;
use std::alloc::{AllocError, Global};

/// Adds the drum word of this number, unless it is there.
fn add_word(altered: &mut LocationSet, number: u16) -> Result<(), AllocError>
    requires { number < 2000 }
    ensures { OnOk result (places_of altered.new
        ≡ with_new (places_of altered.old) (number ∷ [])) }
{
    let Some(word) = Location::new(number) else {
        unreachable!()
    };
    altered.add(word)
}

/// Adds the words that an instruction alters, unless they are there.
fn add_altered_by(
    altered: &mut LocationSet,
    flow: &Flow<'_>,
    fixed: &Fixed,
    instruction: Instruction,
) -> Result<(), AllocError>
    requires { AreFixed flow.now fixed.now }
    ensures { OnOk result (places_of altered.new ≡ with_new (places_of altered.old)
        (altered_by flow.now.notes.now (executed_in flow.now) instruction)) }
{
    let words = writes(instruction);
    for number in words.start..words.end {
        if !fixed.has(number) {
            continue;
        }
        add_word(altered, number)?;
    }
    Ok(())
}

/// Adds the words that the instructions of a pattern alter: of those that write the same words the
/// first one's.
fn add_altered_in(
    altered: &mut LocationSet,
    flow: &Flow<'_>,
    fixed: &Fixed,
    pattern: Pattern,
) -> Result<(), AllocError>
    requires { AreFixed flow.now fixed.now }
    ensures { OnOk result (places_of altered.new ≡ with_new (places_of altered.old)
        (flat_map (altered_by flow.now.notes.now (executed_in flow.now)) (matching pattern))) }
{
    let mut d = pattern.d_from;
    while d <= pattern.d_to {
        let instruction = instruction_of(pattern, d);
        add_altered_by(altered, flow, fixed, instruction)?;
        d = same_writes_end(instruction);
    }
    Ok(())
}

/// The words that the instructions of a location alter, each once, in the order in which they come
/// to them.
pub fn altered_at(
    alloc: Global,
    flow: &Flow<'_>,
    fixed: &Fixed,
    location: Location,
) -> Result<LocationSet, AllocError>
    requires { AreFixed flow.now fixed.now }
    ensures { IfOk result (λ altered. places_of altered ≡ said.altered (loads_in flow.now.deck.now)
        flow.now.notes.now (executed_in flow.now) location.number) }
{
    let mut altered = LocationSet::none(alloc);
    for pattern in Patterns::at(flow.deck(), flow.notes(), location) {
        add_altered_in(&mut altered, flow, fixed, pattern)?;
    }
    Ok(altered)
}
