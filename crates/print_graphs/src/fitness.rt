//! Whether a location is loaded or listed, with operations in the profile alone.

ghost use Rattle.std.specs.Prelude.{◌≡◌, ◌||◌, ◌&&◌, is_some};
ghost use Rattle.std.specs.List.{list_all};
ghost use Rattle.read_decks.specs.InDeck.{loads_in};
ghost use Rattle.base_words.specs.Op.{op_of};
ghost use Rattle.print_graphs.specs.Graph as said;

use base_notes::Notes;
use base_words::{Location, Op};
use flow_graph::place::is_listed;
use read_decks::Deck;

/// Whether a location is loaded or listed.
fn is_there(deck: &Deck, notes: &Notes, location: Location) -> bool
    ensures { result ≡ said.is_there (loads_in deck.now) notes.now location.number }
{
    deck.word(location).is_some() || is_listed(notes, location)
}

/// Whether each of these operations is in the profile.
fn are_in_profile(operations: &[u8]) -> bool
    ensures { result ≡ list_all (λ op. is_some (op_of op)) operations.now }
{
    operations.iter().all(|op| Op::of(*op).is_some())
}

/// Whether a location with these operations is fit to be executed: it is loaded or listed, and each
/// of them is in the profile.
pub(crate) fn is_fit(deck: &Deck, notes: &Notes, location: Location, operations: &[u8]) -> bool
    ensures { result ≡ (said.is_there (loads_in deck.now) notes.now location.number
        && list_all (λ op. is_some (op_of op)) operations.now) }
{
    is_there(deck, notes, location) && are_in_profile(operations)
}
