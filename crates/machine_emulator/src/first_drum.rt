//! The drum at time 0.

ghost use Rattle.std.specs.Prelude.{◌≡◌, ◌<◌, IfOk};
ghost use Rattle.read_decks.specs.InDeck.{loads_in};
ghost use Rattle.machine_emulator.specs.FirstState.{first_word as first_of, IsFirstDrum};

use crate::memory::Memory;
use crate::setup::Setup;
use base_words::{Location, Word};
use read_decks::Deck;
use std::alloc::Global;

/// The word at a drum location: the deck's, elsewhere the setup's, else +0.
fn first_word(deck: &Deck, setup: &Setup, location: Location) -> Word
    ensures { result ≡ first_of (loads_in deck.now) setup.now.words.items location.number }
{
    let zero = Word {
        minus: false,
        digits: 0,
    };
    match deck.word(location) {
        Some(word) => word,
        None => setup.given(location).unwrap_or(zero),
    }
}

/// The 2000 words of the drum at time 0, by their locations.
///
/// # Errors
///
/// [`Memory`] where there is no memory for them.
pub fn first_drum(alloc: Global, deck: &Deck, setup: &Setup) -> Result<Vec<Word>, Memory>
    ensures { IfOk result (λ drum.
        IsFirstDrum (loads_in deck.now) setup.now.words.items drum.items) }
{
    let mut drum = Vec::with_capacity(alloc, usize::from(Location::DRUM))?;
    for number in 0..Location::DRUM {
        let word = first_word(deck, setup, Location { number });
        let Ok(()) = drum.push(word) else {
            return Err(Memory);
        };
    }
    Ok(drum)
}
