//! Whether the notes allow an instruction at a location.

ghost use Rattle.std.specs.Prelude.{flat_map, Contains, IsTrue, MatchBool};
ghost use Rattle.read_decks.specs.InDeck.{loads_in};
ghost use Rattle.base_notes.specs.Allowed.{matching, loaded, is_listed, allowed};

use base_notes::{Notes, Pattern};
use base_words::{Instruction, Location};
use read_decks::Deck;

/// Whether the instruction matches one of the patterns.
fn has_match(patterns: &[Pattern], instruction: Instruction) -> bool
    ensures { MatchBool result
        (Contains (flat_map matching patterns.now) instruction)
        (¬ Contains (flat_map matching patterns.now) instruction) }
{
    for pattern in patterns {
        if pattern.matches(instruction) {
            return true;
        }
    }
    false
}

/// Whether the deck loads the instruction into the location.
fn is_loaded(deck: &Deck, location: Location, instruction: Instruction) -> bool
    ensures { MatchBool result
        (Contains (loaded (loads_in deck.now location.number)) instruction)
        (¬ Contains (loaded (loads_in deck.now location.number)) instruction) }
{
    match deck.word(location) {
        Some(word) => Instruction::of(word) == instruction,
        None => false,
    }
}

/// Whether the notes allow the instruction at the location: one that isn't listed may hold any.
pub fn is_allowed(notes: &Notes, deck: &Deck, location: Location, instruction: Instruction) -> bool
    ensures { MatchBool result
        (IsTrue (is_listed notes.now location.number)
        → Contains (allowed (loads_in deck.now) notes.now location.number) instruction)
        (¬ (IsTrue (is_listed notes.now location.number)
        → Contains (allowed (loads_in deck.now) notes.now location.number) instruction)) }
{
    let Some(patterns) = notes.patterns(location) else {
        return true;
    };
    if is_loaded(deck, location, instruction) {
        return true;
    }
    has_match(patterns, instruction)
}
