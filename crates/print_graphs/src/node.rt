use crate::fitness::is_fit;
use crate::onward::nexts_at;
use crate::operations::operations_at;
use crate::stops::may_stop;
use crate::written::written_at;
use base_words::Location;
use flow_graph::Flow;
use flow_graph::location_set::LocationSet;
use flow_graph::place::is_listed;
use std::alloc::{AllocError, Global};

/// What is drawn as a box, mostly an executed word: which operations are allowed there, each once,
/// whether it has a list, whether it is neither loaded nor listed or has an operation outside the
/// profile, whether one of its instructions may stop the run, where they go on, and which executed
/// words they write. In an outline it may be several words that go straight on from one to the
/// next.
#[derive(Drop)]
pub(crate) struct Node {
    pub(crate) location: Location,
    pub(crate) further: Vec<Location>,
    pub(crate) operations: Vec<u8>,
    pub(crate) is_listed: bool,
    pub(crate) is_unfit: bool,
    pub(crate) may_stop: bool,
    pub(crate) nexts: LocationSet,
    pub(crate) written: LocationSet,
}

impl Node {
    ghost use Rattle.std.specs.Prelude.{◌≡◌, IfOk, OnOk, []};
    ghost use Rattle.read_decks.specs.InDeck.{loads_in};
    ghost use Rattle.flow_graph.specs.Executed.{each_place, with_new, AreAllNodes};
    ghost use Rattle.flow_graph.specs.Flow.{executed_in, nodes_of, of_flow};
    ghost use Rattle.flow_graph.specs.Found.{places_of};
    ghost use Rattle.flow_graph.specs.Taken.{is_among};
    ghost use Rattle.print_graphs.specs.Graph as said;
    ghost use Rattle.print_graphs.specs.GraphOf.{node_of};
    ghost use Rattle.print_graphs.specs.Outline.{join};

    /// The last of its words.
    pub(crate) fn last(&self) -> Location
        ensures { result.number ≡ said.last_word (node_of self.now) }
    {
        match self.further.last() {
            Some(location) => *location,
            None => self.location,
        }
    }

    /// Puts a word behind its last.
    pub(crate) fn join(&mut self, word: Node) -> Result<(), AllocError>
        ensures { OnOk result (node_of self.new ≡ join (node_of self.old) (node_of word)) }
    {
        self.further.push(word.location)?;
        self.write_all(&word)?;
        let Node {
            may_stop,
            nexts,
            ..
        } = word;
        self.may_stop = self.may_stop || may_stop;
        self.nexts = nexts;
        Ok(())
    }

    /// Adds the words that another writes to those that it writes.
    fn write_all(&mut self, other: &Node) -> Result<(), AllocError>
        ensures written { OnOk result (places_of self.new.written
            ≡ with_new (places_of self.old.written) (places_of other.now.written)) }
        ensures same { OnOk result (record (node_of self.new) { written = [] }
            ≡ record (node_of self.old) { written = [] }) }
    {
        for location in other.written.locations() {
            self.written.add(*location)?;
        }
        Ok(())
    }

    /// Whether it goes on at a location.
    pub(crate) fn goes_on_at(&self, location: Location) -> bool
        ensures { result ≡ is_among (places_of self.now.nexts) location.number }
    {
        self.nexts.index_of(location).is_some()
    }

    /// Whether it writes the word at a location.
    pub(crate) fn writes(&self, location: Location) -> bool
        ensures { result ≡ is_among (places_of self.now.written) location.number }
    {
        self.written.index_of(location).is_some()
    }

    /// What is drawn of a location of a flow graph.
    pub(crate) fn of(alloc: Global, flow: &Flow<'_>, location: Location) -> Result<Node, AllocError>
        requires nodes { of_flow AreAllNodes flow.now (nodes_of flow.now) }
        requires places { each_place (nodes_of flow.now) ≡ executed_in flow.now }
        ensures { IfOk result (λ node. node_of node ≡ said.node (loads_in flow.now.deck.now)
            flow.now.notes.now (nodes_of flow.now) location.number) }
    {
        let operations = operations_at(alloc, flow.deck(), flow.notes(), location)?;
        let is_unfit = !is_fit(flow.deck(), flow.notes(), location, &operations);
        Ok(Node {
            location,
            further: Vec::new(alloc),
            operations,
            is_listed: is_listed(flow.notes(), location),
            is_unfit,
            may_stop: may_stop(flow.deck(), flow.notes(), location),
            nexts: nexts_at(alloc, flow, location)?,
            written: written_at(alloc, flow, location)?,
        })
    }
}
