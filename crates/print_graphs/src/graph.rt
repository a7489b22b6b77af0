use crate::closing::ClosingEdges;
use crate::node::Node;
use crate::outline::boxes_of;
use base_notes::Notes;
use base_words::Location;
use flow_graph::{Flow, Refusal, discover};
use flow_loops::closing_edges;
use read_decks::Deck;
use std::alloc::{AllocError, Global};

/// What is drawn of the flow graph of a deck: its executed words, in the order of discovery, or the
/// boxes of its outline, the edges that close its loops and lack a mark, and where it starts.
#[derive(Drop)]
pub struct Graph {
    pub(crate) nodes: Vec<Node>,
    pub(crate) loops: ClosingEdges,
    pub(crate) start: Location,
}

impl Graph {
    ghost use Rattle.std.specs.Prelude.{◌≡◌, IfOk, IfErr, List, map};
    ghost use Rattle.read_decks.specs.InDeck.{loads_in, start_in};
    ghost use Rattle.flow_graph.specs.Executed.{each_place, AreAllNodes};
    ghost use Rattle.flow_graph.specs.Flow.{executed_in, nodes_of as reached_in, of_flow};
    ghost use Rattle.flow_graph.specs.Refused.{IsDiscoveryRefusal};
    ghost use Rattle.flow_loops.specs.Loops.{AreClosing};
    ghost use Rattle.print_graphs.specs.Graph.{AreNodes, node};
    ghost use Rattle.print_graphs.specs.Graph as drawn;
    ghost use Rattle.print_graphs.specs.GraphOf.{loops_in, node_of, nodes_in, start_of};
    ghost use Rattle.print_graphs.specs.Outline.{outlined};

    /// What is drawn of each executed word, in the order of discovery.
    fn nodes_of(alloc: Global, flow: &Flow<'_>) -> Result<Vec<Node>, AllocError>
        requires nodes { of_flow AreAllNodes flow.now (reached_in flow.now) }
        requires places { each_place (reached_in flow.now) ≡ executed_in flow.now }
        ensures { IfOk result (λ nodes. map node_of nodes.items
            ≡ map (node (loads_in flow.now.deck.now) flow.now.notes.now (reached_in flow.now))
            (executed_in flow.now)) }
    {
        let mut nodes = Vec::new(alloc);
        for location in flow.executed() {
            nodes.push(Node::of(alloc, flow, *location)?)?;
        }
        Ok(nodes)
    }

    /// What is drawn of the flow graph of a deck under its notes, whatever is wrong with them. It
    /// takes as long as to find the edges that close loops, which `closing_edges` does.
    ///
    /// # Errors
    ///
    /// [`Refusal::TooMany`] where there are more than 65,536 nodes: locations with what is open
    /// there at the exits of calls; [`Refusal::Memory`] where there is no memory.
    pub fn of(alloc: Global, deck: &Deck, notes: &Notes) -> Result<Graph, Refusal>
        ensures nodes { IfOk result (λ graph. AreNodes (loads_in deck.now) notes.now
            (start_in deck.now) (nodes_in graph)) }
        ensures loops { IfOk result (λ graph. AreClosing (loads_in deck.now) notes.now
            (start_in deck.now) (loops_in graph)) }
        ensures start { IfOk result (λ graph. start_of graph ≡ start_in deck.now) }
        ensures refused { IfErr result (IsDiscoveryRefusal (loads_in deck.now) notes.now
            (start_in deck.now)) }
    {
        let flow = discover(alloc, deck, notes)?;
        let edges = closing_edges(alloc, &flow)?;
        Ok(Graph {
            nodes: Graph::nodes_of(alloc, &flow)?,
            loops: ClosingEdges::of(alloc, &edges)?,
            start: deck.start(),
        })
    }

    /// The outline of the flow graph of a deck under its notes, whatever is wrong with them: words
    /// that go straight on from one to the next are one box.
    ///
    /// # Errors
    ///
    /// Those of [`Graph::of`].
    pub fn outline(alloc: Global, deck: &Deck, notes: &Notes) -> Result<Graph, Refusal>
        ensures nodes { IfOk result (λ graph. (words : List drawn.Node)
            × AreNodes (loads_in deck.now) notes.now (start_in deck.now) words
            × (nodes_in graph
            ≡ outlined notes.now.marks (loops_in graph) (start_in deck.now) words)) }
        ensures loops { IfOk result (λ graph. AreClosing (loads_in deck.now) notes.now
            (start_in deck.now) (loops_in graph)) }
        ensures start { IfOk result (λ graph. start_of graph ≡ start_in deck.now) }
        ensures refused { IfErr result (IsDiscoveryRefusal (loads_in deck.now) notes.now
            (start_in deck.now)) }
    {
        let graph = Graph::of(alloc, deck, notes)?;
        let Graph {
            nodes,
            loops,
            start,
        } = graph;
        let nodes = boxes_of(alloc, notes.marks(), &loops, start, nodes)?;
        Ok(Graph {
            nodes,
            loops,
            start,
        })
    }
}
