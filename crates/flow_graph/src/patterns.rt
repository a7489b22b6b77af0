//! The patterns of a location, with the deck's own instruction as one.

ghost use Rattle.std.specs.Prelude.{◌≡◌, ◌≤◌, [], ◌∷◌, flat_map, option_to_list};
ghost use Rattle.std.specs.Iterator.{YieldsFirst, item_count};
ghost use Rattle.base_words.specs.Instruction as digits;
ghost use Rattle.read_decks.specs.InDeck.{loads_in};
ghost use Rattle.base_notes.specs.Allowed as allowed;
ghost use Rattle.base_notes.specs.Allowed.{matching};
ghost use Rattle.flow_graph.specs.Patterns.{patterns_left};

use crate::instructions::{listed, loaded};
use base_notes::{Notes, Pattern};
use base_words::{Instruction, Location};
use read_decks::Deck;

/// The patterns whose instructions are allowed at a location, in order: the deck's instruction, if
/// it loads the location, as a pattern of one data address, and then those of the location's list.
#[derive(Clone, Copy)]
pub struct Patterns<'a> {
    loaded: Option<Pattern>,
    listed: &'a [Pattern],
}

impl<'a> Patterns<'a> {
    /// The patterns whose instructions are allowed at the location.
    pub fn at(deck: &Deck, notes: &'a Notes, location: Location) -> Patterns<'a>
        ensures { flat_map matching (patterns_left result)
            ≡ allowed.allowed (loads_in deck.now) notes.now location.number }
    {
        Patterns {
            loaded: loaded_alone(deck, location),
            listed: listed(notes, location),
        }
    }
}

/// The instruction that the deck loads into the location, as a pattern.
fn loaded_alone(deck: &Deck, location: Location) -> Option<Pattern>
    ensures { flat_map matching (option_to_list result)
        ≡ allowed.loaded (loads_in deck.now location.number) }
{
    match loaded(deck, location) {
        Some(instruction) => Some(alone(instruction)),
        None => None,
    }
}

/// The pattern that the instruction alone matches.
fn alone(instruction: Instruction) -> Pattern
    ensures { matching result ≡ instruction ∷ [] }
{
    Pattern {
        op: instruction.op,
        d_from: instruction.d,
        d_to: instruction.d,
        i: instruction.i,
    }
}

/// The instruction of a pattern that has this data address.
pub fn instruction_of(pattern: Pattern, d: u16) -> Instruction
    requires { d ≤ pattern.d_to }
    ensures { result ≡ digits.instruction pattern.op d pattern.i }
{
    Instruction {
        op: pattern.op,
        d,
        i: pattern.i,
    }
}

impl Iterator for Patterns<'_> {
    type Item = Pattern;

    ghost next_gives = { YieldsFirst patterns_left };

    ghost remaining = { item_count patterns_left };

    fn next(&mut self) -> Option<Pattern> {
        if let Some(pattern) = self.loaded.take() {
            return Some(pattern);
        }
        let [pattern, others @ ..] = self.listed else {
            return None;
        };
        self.listed = others;
        Some(*pattern)
    }
}
