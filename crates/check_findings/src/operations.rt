//! The operations outside the profile that are allowed at a location.

ghost use Rattle.std.specs.Prelude.{◌≡◌, IfOk, OnOk};
ghost use Rattle.read_decks.specs.InDeck.{loads_in};
ghost use Rattle.flow_graph.specs.Executed.{with_new};
ghost use Rattle.check_findings.specs.FoundAt as said;
ghost use Rattle.check_findings.specs.FoundAt.{outside};

use base_notes::Notes;
use base_words::{Location, Op};
use flow_graph::patterns::Patterns;
use read_decks::Deck;
use std::alloc::{AllocError, Global};

/// Adds an operation, unless it is in the profile or there already.
fn add_operation(operations: &mut Vec<u8>, op: u8) -> Result<(), AllocError>
    ensures { OnOk result (operations.new.items ≡ with_new operations.old.items (outside op)) }
{
    if Op::of(op).is_some() {
        return Ok(());
    }
    if operations.contains(&op) {
        return Ok(());
    }
    operations.push(op)?;
    Ok(())
}

/// The operations outside the profile that are allowed at a location, each once, in order.
pub fn operations_outside(
    alloc: Global,
    deck: &Deck,
    notes: &Notes,
    location: Location,
) -> Result<Vec<u8>, AllocError>
    ensures { IfOk result (λ operations. operations.items
        ≡ said.operations_outside (loads_in deck.now) notes.now location.number) }
{
    let mut operations = Vec::new(alloc);
    for pattern in Patterns::at(deck, notes, location) {
        add_operation(&mut operations, pattern.op)?;
    }
    Ok(operations)
}
