ghost use Rattle.std.specs.Prelude.{◌≡◌, ◌≢◌, [], map, filter, false, IfOk};
ghost use Rattle.std.specs.Option.{is_some};
ghost use Rattle.read_decks.specs.InDeck.{loads_in};
ghost use Rattle.read_faults.specs.FaultLines.{AreLoadedTwice};

use base_words::{Location, Word};
use read_decks::{Deck, DeckFault, deck_of};
use read_replays::{InputFault, inputs_of};
use std::alloc::{AllocError, Global};

/// The locations that both a deck and inputs load, in the order of the inputs; none where one of
/// them has a fault.
pub fn loaded_twice(alloc: Global, deck: &[u8], inputs: &[u8]) -> Result<Vec<Location>, AllocError>
    ensures { IfOk result (λ loaded. AreLoadedTwice deck.now inputs.now
        (map (λ location. location.number) loaded.items)) }
{
    let deck = match deck_of(alloc, deck) {
        Ok(deck) => deck,
        Err(fault) => return none_but_for_memory(alloc, deck_wants_memory(fault)),
    };
    match inputs_of(alloc, inputs) {
        Ok(inputs) => loaded_by(alloc, &deck, &inputs.setup.words),
        Err(fault) => none_but_for_memory(alloc, inputs_want_memory(fault)),
    }
}

/// Whether a deck's fault is lack of memory.
fn deck_wants_memory(fault: DeckFault) -> bool
    ensures { result ≡ false → fault ≢ DeckFault.Memory }
{
    matches!(fault, DeckFault::Memory)
}

/// Whether a fault of inputs is lack of memory.
fn inputs_want_memory(fault: InputFault) -> bool
    ensures { result ≡ false → fault ≢ InputFault.Memory }
{
    matches!(fault, InputFault::Memory)
}

/// No locations; but where there was no memory, that is the fault.
fn none_but_for_memory(alloc: Global, wanting: bool) -> Result<Vec<Location>, AllocError>
    ensures { IfOk result (λ none. (wanting ≡ false) × (none.items ≡ [])) }
{
    if wanting {
        return Err(AllocError);
    }
    Ok(Vec::new(alloc))
}

/// Those of given locations that a deck loads, in order.
fn loaded_by(
    alloc: Global,
    deck: &Deck,
    given: &[(Location, Word)],
) -> Result<Vec<Location>, AllocError>
    ensures { IfOk result (λ loaded. map (λ location. location.number) loaded.items
        ≡ filter (λ number. is_some (loads_in deck.now number))
        (map (λ one. one.0.number) given.now)) }
{
    let mut loaded = Vec::new(alloc);
    for (location, _) in given {
        if deck.word(*location).is_some() {
            loaded.push(*location)?;
        }
    }
    Ok(loaded)
}
