//! When a deck with its notes is accepted.

ghost use Rattle.std.specs.Prelude.{◌≡◌, [], IfOk, IfErr};
ghost use Rattle.read_decks.specs.InDeck.{loads_in, start_in};
ghost use Rattle.flow_graph.specs.Accepted.{IsAccepted};
ghost use Rattle.flow_graph.specs.Executed.{AreAllNodes};
ghost use Rattle.flow_graph.specs.Flow.{deck_of, notes_of, nodes_of, executed_in, of_flow};
ghost use Rattle.flow_graph.specs.Flow.{AreFound};
ghost use Rattle.flow_acceptance.specs.Acceptance.{IsRefusal};

use crate::ordered_flow::OrderedFlow;
use base_notes::Notes;
use flow_graph::{Flow, Refusal};
use read_decks::Deck;
use std::alloc::Global;

/// The flow graph of a deck under its notes, where the deck with its notes is accepted.
///
/// # Errors
///
/// The first that applies: [`Refusal::HasCalls`]; [`Refusal::NotLoaded`],
/// [`Refusal::NotInProfile`] or [`Refusal::TooMany`], as discovery meets them; [`Refusal::Alters`];
/// [`Refusal::TooLarge`]; [`Refusal::Unbounded`]. [`Refusal::Memory`] may come before any but the
/// first, where there is no memory.
pub fn accept<'a>(alloc: Global, deck: &'a Deck, notes: &'a Notes) -> Result<Flow<'a>, Refusal>
    ensures deck { IfOk result (λ flow. deck_of flow ≡ deck.now) }
    ensures notes { IfOk result (λ flow. notes_of flow ≡ notes.now) }
    ensures accepted { IfOk result (λ flow. IsAccepted (loads_in deck.now) notes.now
        (start_in deck.now) (executed_in flow)) }
    ensures nodes { IfOk result (λ flow. of_flow AreAllNodes flow (nodes_of flow)) }
    ensures found { IfOk result (λ flow. of_flow AreFound flow (executed_in flow)) }
    ensures refused { IfErr result (IsRefusal (loads_in deck.now) notes.now (start_in deck.now)) }
    ensures has_calls { ¬ (notes.now.calls ≡ []) → result ≡ Err Refusal.HasCalls }
{
    Ok(OrderedFlow::of(alloc, deck, notes)?.into_flow())
}
