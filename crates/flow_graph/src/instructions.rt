//! The instructions that are allowed at a location, one after the other.

ghost use Rattle.std.specs.Prelude.{◌≡◌, [], flat_map, option_to_list};
ghost use Rattle.std.specs.Iterator.{YieldsFirst, item_count};
ghost use Rattle.read_decks.specs.InDeck.{loads_in};
ghost use Rattle.base_notes.specs.Allowed as allowed;
ghost use Rattle.flow_graph.specs.Instructions.{instructions_left, listed_from};

use base_notes::{Notes, Pattern};
use base_words::{Instruction, Location};
use read_decks::Deck;

/// The instructions that are allowed at a location, in order: the deck's, if it loads the location,
/// and then those of each pattern, D ascending.
#[derive(Clone, Copy)]
pub struct Instructions<'a> {
    loaded: Option<Instruction>,
    patterns: &'a [Pattern],
    place: usize,
}

impl<'a> Instructions<'a> {
    /// The instructions that are allowed at the location.
    pub fn at(deck: &Deck, notes: &'a Notes, location: Location) -> Instructions<'a>
        ensures { instructions_left result
            ≡ allowed.allowed (loads_in deck.now) notes.now location.number }
    {
        Instructions {
            loaded: loaded(deck, location),
            patterns: listed(notes, location),
            place: 0,
        }
    }

    /// No instruction.
    pub fn none() -> Instructions<'a>
        ensures { instructions_left result ≡ [] }
    {
        Instructions {
            loaded: None,
            patterns: &[],
            place: 0,
        }
    }

    /// The next instruction of the patterns.
    fn next_listed(&mut self) -> Option<Instruction>
        ensures first { YieldsFirst (λ left. listed_from left.place left.patterns.now)
            self.old result self.new }
        ensures loaded { self.new.loaded ≡ self.old.loaded }
    {
        while let [pattern, others @ ..] = self.patterns {
            if let Some(instruction) = pattern.at(self.place) {
                self.place += 1;
                return Some(instruction);
            }
            self.patterns = others;
            self.place = 0;
        }
        None
    }
}

/// The instruction that the deck loads into the location.
pub fn loaded(deck: &Deck, location: Location) -> Option<Instruction>
    ensures { option_to_list result ≡ allowed.loaded (loads_in deck.now location.number) }
{
    match deck.word(location) {
        Some(word) => Some(Instruction::of(word)),
        None => None,
    }
}

/// The patterns of the location, none where it isn't listed.
pub fn listed(notes: &Notes, location: Location) -> &[Pattern]
    ensures { flat_map allowed.matching result.now
        ≡ allowed.listed (allowed.patterns_of notes.now location.number) }
{
    match notes.patterns(location) {
        Some(patterns) => patterns,
        None => &[],
    }
}

impl Iterator for Instructions<'_> {
    type Item = Instruction;

    ghost next_gives = { YieldsFirst instructions_left };

    ghost remaining = { item_count instructions_left };

    fn next(&mut self) -> Option<Instruction> {
        match self.loaded.take() {
            Some(instruction) => Some(instruction),
            None => self.next_listed(),
        }
    }
}
