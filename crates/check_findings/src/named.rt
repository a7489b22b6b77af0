ghost use Rattle.std.specs.Prelude.{vec_len, ◌≡◌};

use crate::stretch::names_from;
use base_notes::{Notes, Pattern};
use base_words::Location;
use flow_graph::Flow;
use flow_graph::patterns::Patterns;
use read_decks::Deck;
use std::alloc::{AllocError, Global};

/// The drum words that executed instructions name as data, by a flag for each.
#[derive(Drop)]
pub struct Named {
    flags: Vec<bool>,
    ghost all: { vec_len flags ≡ 2000 },
}

impl Named {
    ghost use Rattle.std.specs.Prelude.{◌≤◌, ◌↔◌, ℕ, IsTrue, IfOk, Contains, flat_map};
    ghost use Rattle.read_decks.specs.InDeck.{loads_in};
    ghost use Rattle.base_notes.specs.Allowed.{matching};
    ghost use Rattle.check_findings.specs.Idle.{named_at, names};
    ghost use Rattle.check_findings.specs.NamedOf.{AreNamed, FlagsMore, IsBetween, IsFlagged};

    /// No word yet.
    fn none(alloc: Global) -> Result<Named, AllocError>
        ensures { IfOk result (λ named. (word : ℕ) → ¬ IsFlagged named word) }
    {
        let flags = vec![in alloc; false; Location::DRUM as usize]?;
        Ok(Named { flags })
    }

    /// Sets the flags of the words from a number on and below another one.
    fn add(&mut self, from: u16, below: u16)
        requires { below ≤ 2000 }
        ensures { FlagsMore (IsBetween from below) self.old self.new }
    {
        for word in from..below {
            self.flags[word as usize] = true;
        }
    }

    /// Sets the flags of the words that the instructions of a pattern name.
    fn add_pattern(&mut self, pattern: Pattern)
        ensures { FlagsMore (Contains (flat_map names (matching pattern))) self.old self.new }
    {
        let mut d = pattern.d_from;
        while d <= pattern.d_to {
            let stretch = names_from(pattern, d);
            self.add(stretch.from, stretch.below);
            d = stretch.end;
        }
    }

    /// Sets the flags of the words that the instructions of a location name.
    fn add_location(&mut self, deck: &Deck, notes: &Notes, location: Location)
        ensures { FlagsMore (Contains (named_at (loads_in deck.now) notes.now location.number))
            self.old self.new }
    {
        for pattern in Patterns::at(deck, notes, location) {
            self.add_pattern(pattern);
        }
    }

    /// The words that the instructions of executed locations name.
    pub fn of(alloc: Global, flow: &Flow<'_>) -> Result<Named, AllocError>
        ensures { IfOk result (AreNamed flow.now) }
    {
        let mut named = Named::none(alloc)?;
        for location in flow.executed() {
            named.add_location(flow.deck(), flow.notes(), *location);
        }
        Ok(named)
    }

    /// Whether the word of this number is one of them.
    pub fn has(&self, number: u16) -> bool
        ensures { IsTrue result ↔ IsFlagged self.now number }
    {
        self.flags.get(number as usize).copied().unwrap_or(false)
    }
}
