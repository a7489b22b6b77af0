ghost use Rattle.std.specs.Prelude.{◌≡◌, map, IfOk};
ghost use Rattle.flow_loops.specs.Loops.{AreApart};
ghost use Rattle.base_notes.specs.EdgeOf.{edge_of};
ghost use Rattle.print_graphs.specs.GraphOf.{edges_in};
ghost use Rattle.print_graphs.specs.GraphText.{is_loop};

use base_graphs::Distinct;
use base_notes::Edge;
use base_words::Location;
use std::alloc::{AllocError, Global};

/// Where an edge leads from, and where it leads.
#[derive(Clone, Copy, PartialEq, Eq, Hash)]
pub(crate) struct Ends {
    pub(crate) from: Location,
    pub(crate) onto: Location,
}

/// The edges that close the loops of a flow graph.
#[derive(Drop)]
pub(crate) struct ClosingEdges {
    pub(crate) edges: Distinct<Ends>,
}

impl ClosingEdges {
    /// These edges.
    pub(crate) fn of(alloc: Global, edges: &[Edge]) -> Result<ClosingEdges, AllocError>
        requires { AreApart (map edge_of edges.now) }
        ensures { IfOk result (λ loops. edges_in loops ≡ map edge_of edges.now) }
    {
        let mut ends = Distinct::none(alloc);
        for edge in edges {
            ends.add(Ends {
                from: edge.from,
                onto: edge.onto,
            })?;
        }
        Ok(ClosingEdges { edges: ends })
    }

    /// Whether the edge from the one location to the other is one of them.
    pub(crate) fn have(&self, from: Location, onto: Location) -> bool
        ensures { result ≡ is_loop (edges_in self.now) from.number onto.number }
    {
        self.edges.contains(Ends { from, onto })
    }
}
