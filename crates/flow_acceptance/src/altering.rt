//! That no instruction of an executed location alters one without a list.

ghost use Rattle.std.specs.Prelude.{ℕ, Contains, IfSome, IfNone, IfErr, OnOk};
ghost use Rattle.read_decks.specs.InDeck.{loads_in};
ghost use Rattle.base_notes.specs.Allowed.{allowed, matching};
ghost use Rattle.flow_graph.specs.Accepted as said;
ghost use Rattle.flow_graph.specs.Accepted.{IsLowestAltered};
ghost use Rattle.flow_graph.specs.Flow.{deck_of, executed_in, notes_of, of_flow, AreExecuted};
ghost use Rattle.flow_acceptance.specs.Altering.{FlagsFixed, IsFirstAltered, NoneAlters};
ghost use Rattle.flow_acceptance.specs.Altering.{AltersNone};
ghost use Rattle.flow_acceptance.specs.Altering.{IsAlteredBy};

use crate::fixed::Fixed;
use base_notes::Pattern;
use base_words::{Instruction, Location};
use flow_graph::alike::same_writes_end;
use flow_graph::patterns::{Patterns, instruction_of};
use flow_graph::{Flow, Refusal};
use machine_steps::writes;

/// The lowest word that the instruction alters.
fn lowest_altered(flow: &Flow<'_>, fixed: &Fixed, instruction: Instruction) -> Option<Location>
    requires { of_flow FlagsFixed flow.now fixed.now }
    ensures some { IfSome result (λ word.
        of_flow IsLowestAltered flow.now instruction word.number) }
    ensures none { IfNone result (¬ of_flow said.Alters flow.now instruction) }
{
    let words = writes(instruction);
    for number in words.start..words.end {
        if fixed.has(number) {
            return Location::new(number);
        }
    }
    None
}

/// Of a pattern's first instruction that alters a word, the lowest that it alters.
fn first_altered_in(flow: &Flow<'_>, fixed: &Fixed, pattern: Pattern) -> Option<Location>
    requires { of_flow FlagsFixed flow.now fixed.now }
    ensures some { IfSome result (λ word.
        of_flow IsFirstAltered flow.now (matching pattern) word.number) }
    ensures none { IfNone result (of_flow NoneAlters flow.now (matching pattern)) }
{
    let mut d = pattern.d_from;
    while d <= pattern.d_to {
        let instruction = instruction_of(pattern, d);
        if let Some(word) = lowest_altered(flow, fixed, instruction) {
            return Some(word);
        }
        d = same_writes_end(instruction);
    }
    None
}

/// Of a location's first instruction that alters a word, the lowest that it alters.
fn first_altered(flow: &Flow<'_>, fixed: &Fixed, location: Location) -> Option<Location>
    requires { of_flow FlagsFixed flow.now fixed.now }
    ensures some { IfSome result (λ word. of_flow IsFirstAltered flow.now
        (allowed (loads_in (deck_of flow.now)) (notes_of flow.now) location.number) word.number) }
    ensures none { IfNone result (of_flow AltersNone flow.now location.number) }
{
    for pattern in Patterns::at(flow.deck(), flow.notes(), location) {
        if let Some(word) = first_altered_in(flow, fixed, pattern) {
            return Some(word);
        }
    }
    None
}

/// Checks that no instruction of an executed location alters an executed location without a list.
///
/// # Errors
///
/// [`Refusal::Alters`] with the first location in the order of discovery that has an instruction
/// that alters, and the lowest word that its first such instruction alters.
pub fn check_unaltered(flow: &Flow<'_>, fixed: &Fixed) -> Result<(), Refusal>
    requires flow { of_flow AreExecuted flow.now (executed_in flow.now) }
    requires fixed { of_flow FlagsFixed flow.now fixed.now }
    ensures unaltered { OnOk result ((place : ℕ) → Contains (executed_in flow.now) place
        → of_flow AltersNone flow.now place) }
    ensures altered { IfErr result (of_flow IsAlteredBy flow.now) }
{
    for writer in flow.executed() {
        if let Some(word) = first_altered(flow, fixed, *writer) {
            return Err(Refusal::Alters {
                writer: *writer,
                word,
            });
        }
    }
    Ok(())
}
