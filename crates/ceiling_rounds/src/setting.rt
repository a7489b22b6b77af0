//! What walks are walks of, and whether a hop is one of its location.

ghost use Rattle.std.specs.Prelude.{◌≡◌, Contains, IsTrue};
ghost use Rattle.read_decks.specs.InDeck.{loads_in};
ghost use Rattle.base_notes.specs.Allowed.{allowed};
ghost use Rattle.machine_steps.specs.Ways.{ways};
ghost use Rattle.machine_steps.specs.WaysLeft.{seen_way};
ghost use Rattle.flow_graph.specs.Hops.{hops};
ghost use Rattle.flow_graph.specs.Seen.{seen_hop};

use base_notes::{Notes, Times};
use base_words::{Instruction, Location};
use flow_graph::Hop;
use flow_graph::patterns::Patterns;
use machine_steps::{Way, Ways};
use read_decks::Deck;

/// What walks are walks of: a deck, its timing table and its notes.
#[derive(Clone, Copy)]
pub struct Setting<'a> {
    pub deck: &'a Deck,
    pub times: &'a Times,
    pub notes: &'a Notes,
}

/// Whether the two ways are one.
fn is_way(one: Way, other: Way) -> bool
    ensures { IsTrue result → seen_way one ≡ seen_way other }
{
    match one {
        Way::Early => matches!(other, Way::Early),
        Way::To(next) => match other {
            Way::To(onto) => next.number == onto.number,
            Way::Early | Way::Late => false,
        },
        Way::Late => matches!(other, Way::Late),
    }
}

/// Whether the instruction may end by this way.
fn has_way(notes: &Notes, instruction: Instruction, way: Way) -> bool
    ensures { IsTrue result → Contains (ways notes.now instruction) (seen_way way) }
{
    for one in Ways::of(notes, instruction) {
        if is_way(one, way) {
            return true;
        }
    }
    false
}

impl Setting<'_> {
    /// Whether the instruction is allowed at the location.
    fn allows(&self, location: Location, instruction: Instruction) -> bool
        ensures { IsTrue result → Contains
            (allowed (loads_in self.now.deck.now) self.now.notes.now location.number) instruction }
    {
        for pattern in Patterns::at(self.deck, self.notes, location) {
            if pattern.matches(instruction) {
                return true;
            }
        }
        false
    }

    /// Whether the hop is one of the location.
    pub fn has_hop(&self, location: Location, hop: Hop) -> bool
        ensures { IsTrue result → Contains
            (hops (loads_in self.now.deck.now) self.now.notes.now location.number) (seen_hop hop) }
    {
        self.allows(location, hop.instruction) && has_way(self.notes, hop.instruction, hop.way)
    }
}
