//! All hops of a location, looked at pattern by pattern and way by way: of data addresses with the
//! same ways the slowest alone, or those of one revolution.

ghost use Rattle.std.specs.Prelude.{◌≡◌, ℕ, ◌+◌, ◌<◌, ◌≤◌, Contains};
ghost use Rattle.base_words.specs.Instruction.{instruction};
ghost use Rattle.base_words.specs.declared.instruction.Instruction as digits;
ghost use Rattle.read_decks.specs.InDeck.{loads_in};
ghost use Rattle.base_notes.specs.Allowed.{allowed, matching};
ghost use Rattle.machine_steps.specs.WaysLeft.{seen_way};
ghost use Rattle.flow_graph.specs.Profile.{MayEnd};
ghost use Rattle.ceiling_rows.specs.Raised.{latest, GrowsTo, HasTaken, IsRaised, TakesNoMore};
ghost use Rattle.ceiling_rows.specs.Slowest.{AreOfOnePart};
ghost use Rattle.ceiling_rows.specs.Taking.{AreAlike};

use crate::found::Found;
use crate::raised::Raised;
use crate::slowest::ANGLES;
use base_notes::Pattern;
use flow_graph::Hop;
use flow_graph::alike::same_ways_end;
use flow_graph::patterns::{Patterns, instruction_of};
use machine_steps::{Way, Ways};
use read_decks::Deck;

impl Raised {
    /// Looks at the hops by one way of a pattern's instructions with these data addresses, which
    /// are of one part: at the slowest alone, or at those of one revolution, which tell of all.
    fn take_way(&mut self, from: &Found<'_>, pattern: Pattern, way: Way, start: u16, end: u16)
        requires some { start ≤ pattern.d_to }
        requires within { end ≤ pattern.d_to + 1 }
        requires part { AreOfOnePart start end }
        requires may_end { (d : ℕ) → start ≤ d → d < end
            → MayEnd (instruction pattern.op d pattern.i) (seen_way way) }
        ensures taken { (d : ℕ) → start ≤ d → d < end
            → IsRaised from.now self.new (instruction pattern.op d pattern.i) (seen_way way) }
        ensures grown { GrowsTo self.old self.new }
        ensures no_more { (most : ℕ) → self.old.most ≤ most
            → ((d : ℕ) → start ≤ d → d < end
            → latest from.now (instruction pattern.op d pattern.i) (seen_way way) + 49
            ≤ from.now.angle + most) → self.new.most ≤ most }
    {
        if let Some(d) = from.slowest(pattern, way, start, end) {
            let instruction = instruction_of(pattern, d);
            self.take(from, Hop { instruction, way });
            return;
        }
        let last = end.min(start + ANGLES);
        for d in start..last {
            let instruction = instruction_of(pattern, d);
            self.take(from, Hop { instruction, way });
        }
    }

    /// Looks at the hops of a pattern's instructions with these data addresses, which have the same
    /// ways and are of one part.
    fn take_alike(&mut self, from: &Found<'_>, pattern: Pattern, start: u16, end: u16)
        requires some { start ≤ pattern.d_to }
        requires within { end ≤ pattern.d_to + 1 }
        requires alike { AreAlike from.now.notes.now pattern start end }
        ensures taken { (d : ℕ) → start ≤ d → d < end
            → HasTaken from.now self.new (instruction pattern.op d pattern.i) }
        ensures grown { GrowsTo self.old self.new }
        ensures no_more { (most : ℕ) → self.old.most ≤ most
            → ((d : ℕ) → start ≤ d → d < end
            → TakesNoMore from.now most (instruction pattern.op d pattern.i))
            → self.new.most ≤ most }
    {
        for way in Ways::of(from.notes, instruction_of(pattern, start)) {
            self.take_way(from, pattern, way, start, end);
        }
    }

    /// Looks at all hops of a pattern's instructions.
    fn take_pattern(&mut self, from: &Found<'_>, pattern: Pattern)
        ensures taken { (ins : digits.Instruction) → Contains (matching pattern) ins
            → HasTaken from.now self.new ins }
        ensures grown { GrowsTo self.old self.new }
        ensures no_more { (most : ℕ) → self.old.most ≤ most
            → ((ins : digits.Instruction) → Contains (matching pattern) ins
            → TakesNoMore from.now most ins) → self.new.most ≤ most }
    {
        let mut d = pattern.d_from;
        while d <= pattern.d_to {
            let end = same_ways_end(from.notes, instruction_of(pattern, d)).min(pattern.d_to + 1);
            self.take_alike(from, pattern, d, end);
            d = end;
        }
    }

    /// Looks at all hops of the location.
    pub fn take_all(&mut self, deck: &Deck, from: &Found<'_>)
        ensures taken { (ins : digits.Instruction)
            → Contains (allowed (loads_in deck.now) from.now.notes.now from.now.location.number) ins
            → HasTaken from.now self.new ins }
        ensures no_more { (most : ℕ) → self.old.most ≤ most
            → ((ins : digits.Instruction) → Contains
            (allowed (loads_in deck.now) from.now.notes.now from.now.location.number) ins
            → TakesNoMore from.now most ins) → self.new.most ≤ most }
    {
        for pattern in Patterns::at(deck, from.notes, from.location) {
            self.take_pattern(from, pattern);
        }
    }
}
