//! Which patterns of a list were met.

ghost use Rattle.std.specs.Prelude.{◌≡◌, ◌==◌, ◌&&◌, ◌||◌, Bool, false, IfOk, count_by, length};
ghost use Rattle.std.specs.Prelude.{map};
ghost use Rattle.base_notes.specs.declared.notes.pattern.Pattern.{Pattern as PatternType};
ghost use Rattle.program_replay.specs.Coverage.{is_match};

use base_notes::{Listing, Pattern};
use base_words::{Instruction, Location};
use std::alloc::{AllocError, Global};
use std::marker::Model;

/// Which patterns of a list were met, by their order in the list.
#[derive(Drop)]
pub struct Met {
    flags: Vec<bool>,
}

impl Model for Met {
    ghost use Rattle.std.specs.Prelude.{Bool, List};

    ghost Value = { List Bool };

    ghost view = { λ met. met.flags.items };
}

impl Met {
    /// None of these patterns.
    pub fn none(alloc: Global, patterns: &[Pattern]) -> Result<Met, AllocError>
        ensures { IfOk result (λ met. met ≡ map (λ _. false) patterns.now) }
    {
        let flags = vec![in alloc; false; patterns.len()]?;
        Ok(Met { flags })
    }

    /// Notes which of the list's patterns the instruction matches.
    fn meet(&mut self, patterns: &[Pattern], instruction: Instruction)
        requires { length self.old ≡ length patterns.now }
        ensures { (flag : PatternType → Bool) → self.old ≡ map flag patterns.now
            → self.new
            ≡ map (λ pattern. flag pattern || is_match pattern instruction) patterns.now }
    {
        for place in 0..patterns.len() {
            self.flags[place] |= patterns[place].matches(instruction);
        }
    }

    /// Notes which of the list's patterns an instruction matches that is fetched at a location, the
    /// list's or another.
    pub fn see(&mut self, list: &Listing, location: Location, instruction: Instruction)
        requires { length self.old ≡ length list.now.patterns.items }
        ensures { (flag : PatternType → Bool) → self.old ≡ map flag list.now.patterns.items
            → self.new ≡ map (λ pattern. flag pattern
            || (location.number == list.now.location.number && is_match pattern instruction))
            list.now.patterns.items }
    {
        if location.number == list.location.number {
            self.meet(&list.patterns, instruction);
        }
    }

    /// How many there are.
    pub fn count(&self) -> usize
        ensures { result ≡ count_by (λ met. met) self.now }
    {
        self.flags.iter().filter(|met| **met).count()
    }
}
