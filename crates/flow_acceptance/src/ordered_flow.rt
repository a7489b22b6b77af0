//! The checks of acceptance, in their order, and what comes of a deck that they let pass.

ghost use Rattle.std.specs.Prelude.{◌≡◌, ◌<◌, ◌≤◌, ℕ, [], length, map, Contains, IfOk, IfErr};
ghost use Rattle.read_decks.specs.InDeck.{loads_in, start_in};
ghost use Rattle.flow_graph.specs.Accepted.{IsAccepted, IsAdmitted};
ghost use Rattle.flow_graph.specs.Executed.{AreAllNodes};
ghost use Rattle.flow_graph.specs.Flow.{deck_of, notes_of, nodes_of, executed_in, of_flow};
ghost use Rattle.flow_graph.specs.Flow.{AreExecuted};
ghost use Rattle.flow_acceptance.specs.Acceptance.{IsAdmissionRefusal, IsRefusal};
ghost use Rattle.flow_acceptance.specs.Altering.{AltersNone};
ghost use Rattle.flow_acceptance.specs.OrderedFlow.{in_order, indices_in_order, nodes_in_order};
ghost use Rattle.flow_acceptance.specs.Free.{IsFreeOrder, IsNodeOrder};

use crate::altering::check_unaltered;
use crate::fixed::Fixed;
use crate::free_order::{FreeOrder, free_order};
use crate::size::check_small;
use base_notes::Notes;
use base_words::Location;
use flow_graph::{Flow, Refusal, flow};
use read_decks::Deck;
use std::alloc::Global;

/// The flow graph of a deck under its notes, where each executed location is in order and none is
/// altered without a list.
fn sound_flow<'a>(alloc: Global, deck: &'a Deck, notes: &'a Notes) -> Result<Flow<'a>, Refusal>
    ensures deck { IfOk result (λ flow. deck_of flow ≡ deck.now) }
    ensures notes { IfOk result (λ flow. notes_of flow ≡ notes.now) }
    ensures nodes { IfOk result (λ flow. of_flow AreAllNodes flow (nodes_of flow)) }
    ensures few { IfOk result (λ flow. length (nodes_of flow) ≤ 65536) }
    ensures executed { IfOk result (λ flow. of_flow AreExecuted flow (executed_in flow)) }
    ensures unaltered { IfOk result (λ flow. (place : ℕ) → Contains (executed_in flow) place
        → of_flow AltersNone flow place) }
    ensures refused { IfErr result (IsRefusal (loads_in deck.now) notes.now (start_in deck.now)) }
    ensures admission { IfErr result (IsAdmissionRefusal (loads_in deck.now) notes.now
        (start_in deck.now)) }
{
    let flow = flow(alloc, deck, notes)?;
    let fixed = Fixed::of(alloc, flow.executed(), notes)?;
    check_unaltered(&flow, &fixed)?;
    Ok(flow)
}

/// The flow graph of an admitted deck under its notes, with an order of its nodes in which every
/// edge free of marks goes on.
#[derive(Drop)]
pub struct OrderedFlow<'a> {
    flow: Flow<'a>,
    order: FreeOrder,
}

impl<'a> OrderedFlow<'a> {
    /// The accepted flow of a deck under its notes, where the deck with its notes is accepted.
    ///
    /// # Errors
    ///
    /// Those of [`accept`](crate::accept).
    pub fn of(alloc: Global, deck: &'a Deck, notes: &'a Notes) -> Result<OrderedFlow<'a>, Refusal>
        ensures deck { IfOk result (λ accepted. deck_of accepted.flow ≡ deck.now) }
        ensures notes { IfOk result (λ accepted. notes_of accepted.flow ≡ notes.now) }
        ensures accepted { IfOk result (λ accepted. IsAccepted (loads_in deck.now) notes.now
            (start_in deck.now) (executed_in accepted.flow)) }
        ensures nodes { IfOk result (λ accepted. AreAllNodes (loads_in deck.now) notes.now
            (start_in deck.now) (nodes_of accepted.flow)) }
        ensures within { IfOk result (λ accepted. (index : ℕ)
            → Contains (indices_in_order accepted) index
            → index < length (nodes_of accepted.flow)) }
        ensures onward { IfOk result (λ accepted. IsNodeOrder (loads_in deck.now) notes.now
            (nodes_of accepted.flow) (nodes_in_order accepted)) }
        ensures order { IfOk result (λ accepted. IsFreeOrder (loads_in deck.now) notes.now
            (executed_in accepted.flow) (in_order accepted)) }
        ensures refused { IfErr result (IsRefusal (loads_in deck.now) notes.now
            (start_in deck.now)) }
        ensures has_calls { ¬ (notes.now.calls ≡ []) → result ≡ Err Refusal.HasCalls }
    {
        if !notes.calls().is_empty() {
            return Err(Refusal::HasCalls);
        }
        let flow = sound_flow(alloc, deck, notes)?;
        check_small(&flow)?;
        let order = free_order(alloc, &flow)?;
        Ok(OrderedFlow { flow, order })
    }

    /// The accepted flow of a deck under its notes, where the deck with its notes is admitted: it
    /// meets all that makes it accepted, except that it may be of any size, and the notes may have
    /// calls.
    ///
    /// # Errors
    ///
    /// Those of [`accept`](crate::accept) but [`Refusal::HasCalls`] and [`Refusal::TooLarge`].
    pub fn of_any_size(
        alloc: Global,
        deck: &'a Deck,
        notes: &'a Notes,
    ) -> Result<OrderedFlow<'a>, Refusal>
        ensures deck { IfOk result (λ accepted. deck_of accepted.flow ≡ deck.now) }
        ensures notes { IfOk result (λ accepted. notes_of accepted.flow ≡ notes.now) }
        ensures admitted { IfOk result (λ accepted. IsAdmitted (loads_in deck.now) notes.now
            (start_in deck.now) (executed_in accepted.flow)) }
        ensures nodes { IfOk result (λ accepted. AreAllNodes (loads_in deck.now) notes.now
            (start_in deck.now) (nodes_of accepted.flow)) }
        ensures within { IfOk result (λ accepted. (index : ℕ)
            → Contains (indices_in_order accepted) index
            → index < length (nodes_of accepted.flow)) }
        ensures onward { IfOk result (λ accepted. IsNodeOrder (loads_in deck.now) notes.now
            (nodes_of accepted.flow) (nodes_in_order accepted)) }
        ensures refused { IfErr result (IsAdmissionRefusal (loads_in deck.now) notes.now
            (start_in deck.now)) }
    {
        let flow = sound_flow(alloc, deck, notes)?;
        let order = free_order(alloc, &flow)?;
        Ok(OrderedFlow { flow, order })
    }

    /// The flow graph itself.
    pub fn flow(&self) -> &Flow<'a>
        ensures { result.now ≡ self.now.flow }
    {
        &self.flow
    }

    /// The flow graph itself, without the order.
    pub(crate) fn into_flow(self) -> Flow<'a>
        ensures { result ≡ self.entry.flow }
    {
        self.flow
    }

    /// The indices of the nodes, in an order in which every edge free of marks goes on.
    pub fn nodes(&self) -> &[usize]
        ensures { result.now ≡ indices_in_order self.now }
    {
        &self.order.nodes
    }

    /// The locations of the nodes, in that order: each executed location once, where the notes have
    /// no calls.
    pub fn order(&self) -> &[Location]
        ensures { map (λ location. location.number) result.now ≡ in_order self.now }
    {
        &self.order.locations
    }
}
