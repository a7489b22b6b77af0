//! The operations that are allowed at a location.

ghost use Rattle.std.specs.Prelude.{◌≡◌, [], ◌∷◌, IfOk, OnOk};
ghost use Rattle.read_decks.specs.InDeck.{loads_in};
ghost use Rattle.flow_graph.specs.Executed.{with_new};
ghost use Rattle.print_graphs.specs.Graph as said;

use base_notes::Notes;
use base_words::Location;
use flow_graph::patterns::Patterns;
use read_decks::Deck;
use std::alloc::{AllocError, Global};

/// Adds an operation, unless it is there.
fn add_operation(operations: &mut Vec<u8>, op: u8) -> Result<(), AllocError>
    ensures { OnOk result (operations.new.items ≡ with_new operations.old.items (op ∷ [])) }
{
    if operations.contains(&op) {
        return Ok(());
    }
    operations.push(op)?;
    Ok(())
}

/// The operations that are allowed at a location, each once, in order.
pub fn operations_at(
    alloc: Global,
    deck: &Deck,
    notes: &Notes,
    location: Location,
) -> Result<Vec<u8>, AllocError>
    ensures { IfOk result (λ operations. operations.items
        ≡ said.operations (loads_in deck.now) notes.now location.number) }
{
    let mut operations = Vec::new(alloc);
    for pattern in Patterns::at(deck, notes, location) {
        add_operation(&mut operations, pattern.op)?;
    }
    Ok(operations)
}
