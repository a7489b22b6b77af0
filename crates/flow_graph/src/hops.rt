//! The hops of a location, one after the other.

ghost use Rattle.std.specs.Prelude.{◌≡◌, [], flat_map};
ghost use Rattle.std.specs.Iterator.{YieldsFirstBy, item_count};
ghost use Rattle.read_decks.specs.InDeck.{loads_in};
ghost use Rattle.flow_graph.specs.Hops as said;
ghost use Rattle.flow_graph.specs.Hops.{hops_of};
ghost use Rattle.flow_graph.specs.HopsLeft.{hops_here, hops_left};
ghost use Rattle.flow_graph.specs.Instructions.{instructions_left};
ghost use Rattle.flow_graph.specs.Seen.{seen_hop};

use crate::instructions::Instructions;
use base_notes::Notes;
use base_words::{Instruction, Location};
use machine_steps::{Way, Ways};
use read_decks::Deck;

/// An instruction that is allowed at a location, and one of its ways.
#[derive(Clone, Copy, Debug, PartialEq, Eq)]
pub struct Hop {
    pub instruction: Instruction,
    pub way: Way,
}

/// The hops of a location, in order: each instruction that is allowed there, with each of its ways.
#[derive(Clone, Copy)]
pub struct Hops<'a> {
    notes: &'a Notes,
    /// The instructions that come after the one that it is at.
    instructions: Instructions<'a>,
    /// The instruction that it is at.
    instruction: Option<Instruction>,
    /// The ways that are left of that instruction.
    ways: Ways,
}

impl<'a> Hops<'a> {
    /// The hops of the location, whether or not it is executed.
    pub(crate) fn at(deck: &Deck, notes: &'a Notes, location: Location) -> Hops<'a>
        ensures { hops_left result ≡ said.hops (loads_in deck.now) notes.now location.number }
    {
        Hops::of(notes, Instructions::at(deck, notes, location))
    }

    /// The hops of these instructions, with the ways of the first at hand: a copy needn't find them
    /// again.
    fn of(notes: &'a Notes, instructions: Instructions<'a>) -> Hops<'a>
        ensures { hops_left result
            ≡ flat_map (hops_of notes.now) (instructions_left instructions.entry) }
    {
        let mut rest = instructions;
        match rest.next() {
            Some(instruction) => Hops {
                notes,
                instructions: rest,
                instruction: Some(instruction),
                ways: Ways::of(notes, instruction),
            },
            None => Hops::none(notes),
        }
    }

    /// No hop.
    pub fn none(notes: &'a Notes) -> Hops<'a>
        ensures { hops_left result ≡ [] }
    {
        Hops {
            notes,
            instructions: Instructions::none(),
            instruction: None,
            ways: Ways::none(),
        }
    }

    /// The next hop of the instruction that it is at.
    fn next_here(&mut self) -> Option<Hop>
        ensures first { YieldsFirstBy seen_hop hops_here self.old result self.new }
        ensures same { self.new ≡ record self.old { ways = self.new.ways } }
    {
        let instruction = self.instruction?;
        let way = self.ways.next()?;
        Some(Hop { instruction, way })
    }
}

impl Iterator for Hops<'_> {
    type Item = Hop;

    ghost next_gives = { YieldsFirstBy seen_hop hops_left };

    ghost remaining = { item_count hops_left };

    fn next(&mut self) -> Option<Hop> {
        loop {
            if let Some(hop) = self.next_here() {
                return Some(hop);
            }
            let Some(instruction) = self.instructions.next() else {
                return None;
            };
            self.ways = Ways::of(self.notes, instruction);
            self.instruction = Some(instruction);
        }
    }
}
