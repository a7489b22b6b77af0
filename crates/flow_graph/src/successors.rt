//! The locations that the instructions of a location go on at, pattern by pattern.

ghost use Rattle.std.specs.Prelude.{◌≡◌, OnOk};
ghost use Rattle.read_decks.specs.InDeck.{loads_in};
ghost use Rattle.base_notes.specs.Allowed.{matching};
ghost use Rattle.flow_graph.specs.Executed.{with_new, successors};
ghost use Rattle.flow_graph.specs.Found.{places_of, targets_of, targets_by};
ghost use Rattle.machine_steps.specs.WaysLeft.{ways_left};

use crate::alike::same_ways_end;
use crate::location_set::LocationSet;
use crate::patterns::{Patterns, instruction_of};
use base_notes::{Notes, Pattern};
use base_words::Location;
use machine_steps::{Way, Ways};
use read_decks::Deck;
use std::alloc::AllocError;

impl LocationSet {
    /// Adds the successors of a location, in the order of its hops, unless they are there.
    pub fn add_successors(
        &mut self,
        deck: &Deck,
        notes: &Notes,
        location: Location,
    ) -> Result<(), AllocError>
        ensures { OnOk result (places_of self.new ≡ with_new (places_of self.old)
            (successors (loads_in deck.now) notes.now location.number)) }
    {
        for pattern in Patterns::at(deck, notes, location) {
            self.add_pattern(notes, pattern)?;
        }
        Ok(())
    }

    /// Adds the locations that the instructions of a pattern go on at: of those with the same ways
    /// the first one's.
    fn add_pattern(&mut self, notes: &Notes, pattern: Pattern) -> Result<(), AllocError>
        ensures { OnOk result (places_of self.new
            ≡ with_new (places_of self.old) (targets_by notes.now (matching pattern))) }
    {
        let mut d = pattern.d_from;
        while d <= pattern.d_to {
            let instruction = instruction_of(pattern, d);
            self.add_ways(Ways::of(notes, instruction))?;
            d = same_ways_end(notes, instruction);
        }
        Ok(())
    }

    /// Adds the locations that ways go on at.
    fn add_ways(&mut self, ways: Ways) -> Result<(), AllocError>
        ensures { OnOk result (places_of self.new
            ≡ with_new (places_of self.old) (targets_of (ways_left ways))) }
    {
        for way in ways {
            let Way::To(location) = way else {
                continue;
            };
            self.add(location)?;
        }
        Ok(())
    }
}
