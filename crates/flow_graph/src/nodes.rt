ghost use Rattle.std.specs.Prelude.{◌≡◌, ◌^◌, ◌<◌, ◌≤◌, List, [], ◌∷◌, ◌++◌, length, nat_eq};
ghost use Rattle.std.specs.Option.{option_eq};
ghost use Rattle.std.specs.Prelude.{option_map, slice_get, Contains, Some, IfOk, IfSome, IfNone};
ghost use Rattle.std.specs.Prelude.{OnOk, take};
ghost use Rattle.std.specs.Cmp.Lexicographic.{pointwise};
ghost use Rattle.read_decks.specs.InDeck.{loads_in};
ghost use Rattle.base_notes.specs.declared.notes.call.Call as said;
ghost use Rattle.machine_steps.specs.Calls.{none_open};
ghost use Rattle.machine_steps.specs.OpenIn.{open_in};
ghost use Rattle.base_graphs.specs.Graph.{AreDifferent};
ghost use Rattle.flow_graph.specs.Executed.{each_place, next_nodes, onward, same_node, with_new_by};
ghost use Rattle.flow_graph.specs.Found.{places_of};
ghost use Rattle.flow_graph.specs.Hops as graphs;
ghost use Rattle.flow_graph.specs.InNodes.{AreHeld, ArePlacedIn, node_in, nodes_in, ways_in};

use crate::location_set::LocationSet;
use crate::node::Node;
use crate::openings::{behind, index_behind};
use base_graphs::Distinct;
use base_notes::{Call, Notes};
use base_words::Location;
use machine_steps::Open;
use read_decks::Deck;
use std::alloc::{AllocError, Global};

/// Nodes without repeats, in the order in which they are found.
#[derive(Debug, Drop)]
pub struct Nodes {
    nodes: Distinct<Node>,
    openings: Vec<Open>,
}

impl Nodes {
    /// How many a flow graph has at most.
    pub const MOST: usize = 65_536;

    /// The node of the start alone, where nothing is open.
    pub fn new(alloc: Global, calls: &[Call], start: Location) -> Result<Nodes, AllocError>
        requires { length calls.now ≤ 64 }
        ensures nodes { IfOk result (λ nodes. nodes_in calls.now nodes
            ≡ record { place = start.number; ways = none_open calls.now } ∷ []) }
        ensures held { IfOk result (AreHeld calls.now) }
    {
        let mut openings = Vec::new(alloc);
        openings.push(Open::none())?;
        let mut nodes = Distinct::none(alloc);
        nodes.add(Node {
            location: start,
            opening: 0,
        })?;
        Ok(Nodes { nodes, openings })
    }

    /// The node at an index of the order, from 0; `None` past its end.
    pub fn get(&self, place: usize) -> Option<Node>
        ensures value { option_map (λ node. node) result
            ≡ slice_get self.now.nodes.keys.items place }
        ensures few { IfSome result (λ node. place < 2 ^ 63) }
    {
        self.nodes.as_slice().get(place).copied()
    }

    /// How many there are.
    pub fn len(&self) -> usize
        ensures { result ≡ length self.now.nodes.keys.items }
    {
        self.nodes.len()
    }

    /// The node at an index of the order, from 0.
    pub fn at(&self, index: usize) -> Node
        requires { index < length self.now.nodes.keys.items }
        ensures value { slice_get self.now.nodes.keys.items index ≡ Some result }
        ensures different { (calls : List said.Call) → AreHeld calls self.now
            → AreDifferent (nodes_in calls self.now) }
    {
        self.nodes.as_slice()[index]
    }

    /// The index of the node that an edge to a location leads to from a node; `None` where no step
    /// may go along it, or that node isn't there.
    pub fn index_onward(&self, notes: &Notes, from: Node, onto: Location) -> Option<usize>
        requires held { AreHeld notes.now.calls self.now }
        requires from { from.opening < length self.now.openings.items }
        ensures found { IfSome result (λ index. (next : graphs.Node)
            × (slice_get (nodes_in notes.now.calls self.now) index ≡ Some next)
            × (onward notes.now (node_in notes.now.calls self.now from) onto.number ≡ next ∷ [])) }
        ensures none { IfNone result ((next : graphs.Node)
            → Contains (nodes_in notes.now.calls self.now) next → ¬ Contains
            (onward notes.now (node_in notes.now.calls self.now from) onto.number) next) }
    {
        let calls = notes.calls();
        if !self.openings[from.opening].may_go(calls, from.location, onto) {
            return None;
        }
        let Ok(opening) = behind(&self.openings, calls, from.opening, from.location, onto) else {
            return None;
        };
        self.nodes.index_of(Node {
            location: onto,
            opening,
        })
    }

    /// Adds the node that an edge to a location leads to from a node, if a step may go along it and
    /// the node isn't there yet.
    fn add_onward(&mut self, notes: &Notes, from: Node, onto: Location) -> Result<(), AllocError>
        requires held { AreHeld notes.now.calls self.old }
        requires from { from.opening < length self.old.openings.items }
        ensures nodes { OnOk result (nodes_in notes.now.calls self.new ≡ with_new_by same_node
            (nodes_in notes.now.calls self.old)
            (onward notes.now (node_in notes.now.calls self.old from) onto.number)) }
        ensures held { OnOk result (AreHeld notes.now.calls self.new) }
        ensures kept { OnOk result ((more : _) × (self.new.openings.items
            ≡ self.old.openings.items ++ more)) }
    {
        let calls = notes.calls();
        if !self.openings[from.opening].may_go(calls, from.location, onto) {
            return Ok(());
        }
        let (before, from) = (from.opening, from.location);
        let opening = index_behind(&mut self.openings, calls, before, from, onto)?;
        self.nodes.add(Node {
            location: onto,
            opening,
        })?;
        Ok(())
    }

    /// Adds the nodes that edges lead to from a node, in the order of its hops, unless they are
    /// there.
    pub fn add_next(
        &mut self,
        alloc: Global,
        deck: &Deck,
        notes: &Notes,
        from: Node,
    ) -> Result<(), AllocError>
        requires held { AreHeld notes.now.calls self.old }
        requires from { from.opening < length self.old.openings.items }
        ensures nodes { OnOk result (nodes_in notes.now.calls self.new ≡ with_new_by same_node
            (nodes_in notes.now.calls self.old)
            (next_nodes (loads_in deck.now) notes.now (node_in notes.now.calls self.old from))) }
        ensures held { OnOk result (AreHeld notes.now.calls self.new) }
    {
        let mut targets = LocationSet::none(alloc);
        targets.add_successors(deck, notes, from.location)?;
        for onto in targets.locations() {
            self.add_onward(notes, from, *onto)?;
        }
        Ok(())
    }

    /// The first of them, as many as a flow graph has at most.
    fn first(&self) -> &[Node]
        ensures { result.now ≡ take 65536 self.now.nodes.keys.items }
    {
        let count = Nodes::MOST.min(self.nodes.len());
        &self.nodes.as_slice()[..count]
    }

    /// The locations of the first nodes, of as many as a flow graph has at most, each once.
    pub fn locations(&self, alloc: Global, calls: &[Call]) -> Result<LocationSet, AllocError>
        ensures { IfOk result (λ executed. places_of executed
            ≡ each_place (take 65536 (nodes_in calls.now self.now))) }
    {
        let mut executed = LocationSet::none(alloc);
        for node in self.first() {
            executed.add(node.location)?;
        }
        Ok(executed)
    }
}
