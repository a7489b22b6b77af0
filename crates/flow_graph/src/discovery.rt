//! The executed locations of a deck under its notes, found and looked at.

ghost use Rattle.std.specs.Prelude.{◌≡◌, ℕ, ◌<◌, ◌≤◌, Contains, IfOk, IfErr, OnOk, Some};
ghost use Rattle.std.specs.Prelude.{length, map, slice_get, take};
ghost use Rattle.read_decks.specs.InDeck.{loads_in, start_in};
ghost use Rattle.flow_graph.specs.Accepted.{IsGood};
ghost use Rattle.flow_graph.specs.Discovered.{AreMet, IsDiscovered};
ghost use Rattle.flow_graph.specs.Executed.{each_place, AreAllNodes};
ghost use Rattle.flow_graph.specs.Flow.{deck_of, notes_of, nodes_of, executed_in};
ghost use Rattle.flow_graph.specs.Flow.{AreFound, AreExecuted};
ghost use Rattle.flow_graph.specs.Found.{places_of};
ghost use Rattle.flow_graph.specs.InNodes.{nodes_in};
ghost use Rattle.flow_graph.specs.Hops as graphs;
ghost use Rattle.flow_graph.specs.Refused.{IsDiscoveryRefusal, IsFirstWrong, IsFlowRefusal};

use crate::flow_graph::Flow;
use crate::location_set::LocationSet;
use crate::nodes::Nodes;
use crate::place::check_place;
use crate::refusal::Refusal;
use base_notes::Notes;
use base_words::Location;
use read_decks::Deck;
use std::alloc::{AllocError, Global};

/// The nodes that discovery found.
#[derive(Drop)]
enum Discovery {
    /// All of them.
    Whole(Nodes),
    /// More than a flow graph has at most.
    TooMany(Nodes),
}

/// The flow graph of a deck under its notes, where each executed location is loaded or listed, with
/// operations in the profile alone.
///
/// # Errors
///
/// [`Refusal::NotLoaded`] or [`Refusal::NotInProfile`] for the first location that discovery meets
/// which is neither loaded nor listed, or has an operation outside the profile;
/// [`Refusal::TooMany`] where it meets more than 65,536 nodes before such a location;
/// [`Refusal::Memory`] where there is no memory.
pub fn flow<'a>(alloc: Global, deck: &'a Deck, notes: &'a Notes) -> Result<Flow<'a>, Refusal>
    ensures deck { IfOk result (λ flow. deck_of flow ≡ deck.now) }
    ensures notes { IfOk result (λ flow. notes_of flow ≡ notes.now) }
    ensures nodes { IfOk result (λ flow. AreAllNodes (loads_in deck.now) notes.now
        (start_in deck.now) (nodes_of flow)) }
    ensures few { IfOk result (λ flow. length (nodes_of flow) ≤ 65536) }
    ensures executed { IfOk result (λ flow. AreExecuted (loads_in deck.now) notes.now
        (start_in deck.now) (executed_in flow)) }
    ensures refused { IfErr result (IsFlowRefusal (loads_in deck.now) notes.now
        (start_in deck.now)) }
{
    match explore(alloc, deck, notes)? {
        Discovery::Whole(nodes) => {
            let executed = good_locations(alloc, deck, notes, &nodes)?;
            Ok(Flow {
                deck,
                notes,
                nodes,
                executed,
            })
        }
        Discovery::TooMany(nodes) => {
            good_locations(alloc, deck, notes, &nodes)?;
            Err(Refusal::TooMany)
        }
    }
}

/// The flow graph of a deck under its notes, whatever stands at its locations. A location that is
/// neither loaded nor listed has no hops, and an instruction outside the profile has none.
///
/// # Errors
///
/// [`Refusal::TooMany`] where there are more than 65,536 nodes; [`Refusal::Memory`] where there is
/// no memory for it.
pub fn discover<'a>(alloc: Global, deck: &'a Deck, notes: &'a Notes) -> Result<Flow<'a>, Refusal>
    ensures deck { IfOk result (λ flow. deck_of flow ≡ deck.now) }
    ensures notes { IfOk result (λ flow. notes_of flow ≡ notes.now) }
    ensures nodes { IfOk result (λ flow. AreAllNodes (loads_in deck.now) notes.now
        (start_in deck.now) (nodes_of flow)) }
    ensures few { IfOk result (λ flow. length (nodes_of flow) ≤ 65536) }
    ensures found { IfOk result (λ flow. AreFound (loads_in deck.now) notes.now
        (start_in deck.now) (executed_in flow)) }
    ensures refused { IfErr result (IsDiscoveryRefusal (loads_in deck.now) notes.now
        (start_in deck.now)) }
{
    let Discovery::Whole(nodes) = explore(alloc, deck, notes)? else {
        return Err(Refusal::TooMany);
    };
    let executed = nodes.locations(alloc, notes.calls())?;
    Ok(Flow {
        deck,
        notes,
        nodes,
        executed,
    })
}

/// The flow graph of a deck under its notes once more, where it was made before.
///
/// # Errors
///
/// [`AllocError`] where there is no memory for it. (It never has too many nodes, since it was made
/// before.)
pub fn rediscover<'a>(
    alloc: Global,
    deck: &'a Deck,
    notes: &'a Notes,
) -> Result<Flow<'a>, AllocError>
    ensures deck { IfOk result (λ flow. deck_of flow ≡ deck.now) }
    ensures notes { IfOk result (λ flow. notes_of flow ≡ notes.now) }
    ensures nodes { IfOk result (λ flow. AreAllNodes (loads_in deck.now) notes.now
        (start_in deck.now) (nodes_of flow)) }
    ensures found { IfOk result (λ flow. AreFound (loads_in deck.now) notes.now
        (start_in deck.now) (executed_in flow)) }
{
    match discover(alloc, deck, notes) {
        Ok(flow) => Ok(flow),
        Err(_) => Err(AllocError),
    }
}

/// The nodes of the flow graph, in the order of discovery, or more than it has at most.
fn explore(alloc: Global, deck: &Deck, notes: &Notes) -> Result<Discovery, AllocError>
    ensures { IfOk result (IsDiscovered (loads_in deck.now) notes.now (start_in deck.now)) }
{
    let mut nodes = Nodes::new(alloc, notes.calls(), deck.start())?;
    let mut turn = 0;
    while let Some(node) = nodes.get(turn) {
        if nodes.len() > Nodes::MOST {
            return Ok(Discovery::TooMany(nodes));
        }
        nodes.add_next(alloc, deck, notes, node)?;
        turn += 1;
    }
    Ok(Discovery::Whole(nodes))
}

/// The locations of the first nodes, of as many as a flow graph has at most, each once, where each
/// is loaded or listed, with operations in the profile alone.
fn good_locations(
    alloc: Global,
    deck: &Deck,
    notes: &Notes,
    nodes: &Nodes,
) -> Result<LocationSet, Refusal>
    requires { AreMet (loads_in deck.now) notes.now (start_in deck.now)
        (nodes_in notes.now.calls nodes.now) }
    ensures places { IfOk result (λ executed. places_of executed
        ≡ each_place (take 65536 (nodes_in notes.now.calls nodes.now))) }
    ensures good { IfOk result (λ executed. (place : ℕ) → Contains (places_of executed) place
        → IsGood (loads_in deck.now) notes.now place) }
    ensures refused { IfErr result (IsFlowRefusal (loads_in deck.now) notes.now
        (start_in deck.now)) }
{
    let executed = nodes.locations(alloc, notes.calls())?;
    check_places(deck, notes, executed.locations())?;
    Ok(executed)
}

/// That each of these locations is loaded or listed, with operations in the profile alone.
fn check_places(deck: &Deck, notes: &Notes, locations: &[Location]) -> Result<(), Refusal>
    ensures good { OnOk result ((place : ℕ)
        → Contains (map (λ location. location.number) locations.now) place
        → IsGood (loads_in deck.now) notes.now place) }
    ensures refused { IfErr result (IsFirstWrong (loads_in deck.now) notes.now
        (map (λ location. location.number) locations.now)) }
{
    for location in locations {
        check_place(deck, notes, *location)?;
    }
    Ok(())
}
