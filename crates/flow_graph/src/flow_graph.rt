ghost use Rattle.std.specs.Prelude.{◌≤◌, length};
ghost use Rattle.flow_graph.specs.InNodes.{AreHeld};
ghost use Rattle.flow_graph.specs.OneProof.{one_proof};

use crate::hops::Hops;
use crate::location_set::LocationSet;
use crate::nodes::Nodes;
use base_notes::Notes;
use base_words::Location;
use read_decks::Deck;

/// The flow graph of a deck under its notes: its nodes, and the executed locations with the hops of
/// each.
#[derive(Debug, Drop)]
pub struct Flow<'a> {
    pub(crate) deck: &'a Deck,
    pub(crate) notes: &'a Notes,
    pub(crate) nodes: Nodes,
    pub(crate) executed: LocationSet,
    ghost held: { AreHeld notes.now.calls nodes } by { Prim.hlevel one_proof },
    ghost few: { length nodes.nodes.keys.items ≤ 65536 },
}

impl<'a> Flow<'a> {
    ghost use Rattle.std.specs.Prelude.{◌≡◌, ◌≤◌, ◌<◌, [], ◌∷◌, map, length, slice_get, Some};
    ghost use Rattle.std.specs.Prelude.{Contains};
    ghost use Rattle.std.specs.Prelude.{IfSome, IfNone};
    ghost use Rattle.read_decks.specs.InDeck.{loads_in};
    ghost use Rattle.base_graphs.specs.Graph.{AreDifferent};
    ghost use Rattle.flow_graph.specs.Hops as said;
    ghost use Rattle.flow_graph.specs.HopsLeft.{hops_left};
    ghost use Rattle.flow_graph.specs.Executed.{onward};
    ghost use Rattle.flow_graph.specs.Flow.{deck_of, notes_of, nodes_of, executed_in};

    /// The executed locations, in the order of discovery.
    pub fn executed(&self) -> &[Location]
        ensures all { map (λ location. location.number) result.now ≡ executed_in self.now }
        ensures different { AreDifferent (executed_in self.now) }
        ensures few { length (executed_in self.now) ≤ 2004 }
    {
        self.executed.locations()
    }

    /// The deck that it is of.
    pub fn deck(&self) -> &'a Deck
        ensures { result.now ≡ deck_of self.now }
    {
        self.deck
    }

    /// The notes that it is under.
    pub fn notes(&self) -> &'a Notes
        ensures { result.now ≡ notes_of self.now }
    {
        self.notes
    }

    /// How many nodes it has, at most 65,536: locations with what is open there at the exits of
    /// calls.
    pub fn size(&self) -> usize
        ensures { result ≡ length (nodes_of self.now) }
    {
        self.nodes.len()
    }

    /// The location of the node with this index in the order of discovery, from 0.
    pub fn location(&self, node: usize) -> Location
        requires { node < length (nodes_of self.now) }
        ensures { (one : said.Node) × (slice_get (nodes_of self.now) node ≡ Some one)
            × (result.number ≡ one.place) }
    {
        self.nodes.at(node).location
    }

    /// The index of the node that an edge to a location leads to from a node; `None` where no step
    /// may go along it.
    pub fn onward(&self, node: usize, onto: Location) -> Option<usize>
        requires { node < length (nodes_of self.now) }
        ensures found { IfSome result (λ index. (from next : said.Node)
            × (slice_get (nodes_of self.now) node ≡ Some from)
            × (slice_get (nodes_of self.now) index ≡ Some next)
            × (onward (notes_of self.now) from onto.number ≡ next ∷ [])) }
        ensures none { IfNone result ((from next : said.Node)
            → slice_get (nodes_of self.now) node ≡ Some from
            → Contains (nodes_of self.now) next
            → ¬ Contains (onward (notes_of self.now) from onto.number) next) }
        ensures different { AreDifferent (nodes_of self.now) }
    {
        self.nodes
            .index_onward(self.notes, self.nodes.at(node), onto)
    }

    /// The index of a location in the order of discovery, from 0; `None` for one that isn't
    /// executed.
    pub fn index_of(&self, location: Location) -> Option<usize>
        ensures found { IfSome result (λ index.
            slice_get (executed_in self.now) index ≡ Some location.number) }
        ensures none { IfNone result (¬ Contains (executed_in self.now) location.number) }
        ensures different { AreDifferent (executed_in self.now) }
    {
        // What `locations` ensures of them: they differ.
        let _executed = self.executed.locations();
        self.executed.index_of(location)
    }

    /// The hops of a location, in order: none where the location isn't executed.
    pub fn hops(&self, location: Location) -> Hops<'a>
        ensures executed { Contains (executed_in self.now) location.number
            → hops_left result ≡ said.hops (loads_in (deck_of self.now))
            (notes_of self.now) location.number }
        ensures others { ¬ Contains (executed_in self.now) location.number → hops_left result ≡ [] }
    {
        match self.executed.index_of(location) {
            Some(_) => Hops::at(self.deck, self.notes, location),
            None => Hops::none(self.notes),
        }
    }
}
