//! The nodes that edges of a graph lead to from one of them, without coming to a location.

ghost use Rattle.std.specs.Prelude.{◌≡◌, ℕ, ◌<◌, ◌↔◌, [], ◌∷◌, filter, length, slice_get};
ghost use Rattle.std.specs.Prelude.{Contains, IfOk, OnOk};
ghost use Rattle.base_graphs.specs.Graph.{row, size};
ghost use Rattle.flow_graph.specs.Executed.{with_new};
ghost use Rattle.flow_graph.specs.Flow.{nodes_of};
ghost use Rattle.flow_loops.specs.Closing.{places_in};
ghost use Rattle.flow_loops.specs.Reached.{AreMet, LeadsPast, is_elsewhere, nodes_in};

use base_graphs::Graph;
use base_words::Location;
use flow_graph::Flow;
use std::alloc::{AllocError, Global};

/// Nodes that were reached, by their indices: each once, in the order in which they were.
#[derive(Drop)]
pub(crate) struct Reached {
    /// Whether each node was.
    pub(crate) flags: Vec<bool>,
    pub(crate) nodes: Vec<usize>,
}

impl Reached {
    /// None of so many nodes.
    fn none(alloc: Global, size: usize) -> Result<Reached, AllocError>
        ensures met { IfOk result (AreMet size) }
        ensures none { IfOk result (λ reached. nodes_in reached ≡ []) }
    {
        let flags = vec![in alloc; false; size]?;
        Ok(Reached {
            flags,
            nodes: Vec::new(alloc),
        })
    }

    /// Adds a node, unless it is there. There are so many in all.
    fn add(&mut self, size: usize, node: usize) -> Result<(), AllocError>
        requires met { AreMet size self.old }
        requires within { node < size }
        ensures met { OnOk result (AreMet size self.new) }
        ensures added { OnOk result (nodes_in self.new
            ≡ with_new (nodes_in self.old) (node ∷ [])) }
    {
        if self.flags[node] {
            return Ok(());
        }
        self.flags[node] = true;
        self.nodes.push(node)?;
        Ok(())
    }

    /// Adds those nodes of a row that don't stand at a location.
    fn add_row(
        &mut self,
        flow: &Flow<'_>,
        avoided: Location,
        row: &[usize],
    ) -> Result<(), AllocError>
        requires met { AreMet (length (nodes_of flow.now)) self.old }
        requires within { (node : ℕ) → Contains row.now node → node < length (nodes_of flow.now) }
        ensures met { OnOk result (AreMet (length (nodes_of flow.now)) self.new) }
        ensures added { OnOk result (nodes_in self.new ≡ with_new (nodes_in self.old)
            (filter (is_elsewhere (places_in flow.now) avoided.number) row.now)) }
    {
        for node in row {
            if flow.location(*node).number() == avoided.number() {
                continue;
            }
            self.add(flow.size(), *node)?;
        }
        Ok(())
    }

    /// The node that was reached at a turn, from 0; `None` where fewer were.
    fn get(&self, turn: usize) -> Option<usize>
        ensures { result ≡ slice_get (nodes_in self.now) turn }
    {
        self.nodes.get(turn).copied()
    }

    /// The nodes that edges lead to from one, none of them onto a node at the location `avoided`;
    /// and that node itself.
    pub(crate) fn past(
        alloc: Global,
        flow: &Flow<'_>,
        graph: &Graph,
        avoided: Location,
        from: usize,
    ) -> Result<Reached, AllocError>
        requires size { size graph.now ≡ length (nodes_of flow.now) }
        requires from { from < size graph.now }
        ensures within { IfOk result (λ reached. (node : ℕ) → Contains (nodes_in reached) node
            → node < size graph.now) }
        ensures reached { IfOk result (λ reached. (node : ℕ) → Contains (nodes_in reached) node
            ↔ LeadsPast (row graph.now) (places_in flow.now) avoided.number from node) }
    {
        let mut reached = Reached::none(alloc, graph.size())?;
        reached.add(graph.size(), from)?;
        for turn in 0..graph.size() {
            let Some(node) = reached.get(turn) else {
                break;
            };
            reached.add_row(flow, avoided, graph.row(node))?;
        }
        Ok(reached)
    }
}
