//! Whether some instruction of a location may stop the run.

ghost use Rattle.std.specs.Prelude.{◌≡◌};
ghost use Rattle.std.specs.List.{list_any};
ghost use Rattle.read_decks.specs.InDeck.{loads_in};
ghost use Rattle.machine_steps.specs.WaysLeft.{ways_left};
ghost use Rattle.base_notes.specs.Allowed.{matching};
ghost use Rattle.print_graphs.specs.Graph as said;
ghost use Rattle.print_graphs.specs.Graph.{stops};
ghost use Rattle.print_graphs.specs.GraphOf.{has_stop_by};

use base_notes::{Notes, Pattern};
use base_words::Location;
use flow_graph::alike::same_ways_end;
use flow_graph::patterns::{Patterns, instruction_of};
use machine_steps::{Way, Ways};
use read_decks::Deck;

/// Whether one of these ways goes on nowhere.
fn has_stop(ways: Ways) -> bool
    ensures { result ≡ list_any stops (ways_left ways) }
{
    for way in ways {
        if matches!(way, Way::Early | Way::Late) {
            return true;
        }
    }
    false
}

/// Whether some instruction of a pattern may stop the run: of those with the same ways the first
/// one is looked at.
fn pattern_may_stop(notes: &Notes, pattern: Pattern) -> bool
    ensures { result ≡ list_any (has_stop_by notes.now) (matching pattern) }
{
    let mut d = pattern.d_from;
    while d <= pattern.d_to {
        let instruction = instruction_of(pattern, d);
        if has_stop(Ways::of(notes, instruction)) {
            return true;
        }
        d = same_ways_end(notes, instruction);
    }
    false
}

/// Whether some instruction of a location, with an operation of the profile, may stop the run.
pub fn may_stop(deck: &Deck, notes: &Notes, location: Location) -> bool
    ensures { result ≡ said.may_stop (loads_in deck.now) notes.now location.number }
{
    for pattern in Patterns::at(deck, notes, location) {
        if pattern_may_stop(notes, pattern) {
            return true;
        }
    }
    false
}
