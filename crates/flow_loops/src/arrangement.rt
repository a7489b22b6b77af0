ghost use Rattle.std.specs.Prelude.{◌≡◌, ℕ, ◌<◌, ◌≤◌, ◌≢◌, [], true, false, length, slice_get};
ghost use Rattle.std.specs.Prelude.{Some, IfOk, IfSome, IfNone, OnOk, Contains, ◌++◌, reverse};

use base_graphs::Graph;
use std::alloc::{AllocError, Global};

/// A depth-first search that puts a graph's nodes into an order.
#[derive(Drop)]
pub(crate) struct Arrangement {
    /// Whether it has met each node.
    pub(crate) met: Vec<bool>,
    /// How many nodes of each node's row it has passed.
    pub(crate) passed: Vec<usize>,
    /// The nodes from the root on whose edges it follows.
    pub(crate) path: Vec<usize>,
    /// The nodes that it has finished, in order.
    pub(crate) finished: Vec<usize>,
}

impl Arrangement {
    ghost use Rattle.base_graphs.specs.Graph.{row, size};
    ghost use Rattle.base_graphs.specs.Search.{last_of};
    ghost use Rattle.flow_loops.specs.Arranging.{Arranges, work_left, ForgetsNone};

    /// A search that hasn't begun.
    pub(crate) fn new(alloc: Global, graph: &Graph) -> Result<Arrangement, AllocError>
        ensures sound { IfOk result (λ search. Arranges (row graph.now) (size graph.now) search) }
        ensures empty { IfOk result (λ search. search.path.items ≡ []) }
    {
        let size = graph.size();
        let met = vec![in alloc; false; size]?;
        let passed = vec![in alloc; 0; size]?;
        Ok(Arrangement {
            met,
            passed,
            path: Vec::new(alloc),
            finished: Vec::new(alloc),
        })
    }

    /// Goes on to a new node, to which an edge of the path's last node leads, if it has one.
    fn enter(&mut self, graph: &Graph, node: usize) -> Result<(), AllocError>
        requires sound { Arranges (row graph.now) (size graph.now) self.old }
        requires new { slice_get self.old.met.items node ≡ Some false }
        requires linked { (last : ℕ) → last_of self.old.path.items ≡ Some last
            → Contains (row graph.now last) node }
        ensures sound { OnOk result (Arranges (row graph.now) (size graph.now) self.new) }
        ensures less { OnOk result (work_left self.new < work_left self.old) }
        ensures kept { OnOk result (ForgetsNone self.old.met.items self.new.met.items) }
        ensures met { OnOk result (slice_get self.new.met.items node ≡ Some true) }
    {
        self.path.push(node)?;
        self.met[node] = true;
        Ok(())
    }

    /// Finishes the path's last node, all of whose edges lead to nodes that are met.
    fn leave(&mut self, graph: &Graph, node: usize) -> Result<(), AllocError>
        requires sound { Arranges (row graph.now) (size graph.now) self.old }
        requires last { last_of self.old.path.items ≡ Some node }
        requires all { (next : ℕ) → Contains (row graph.now node) next
            → slice_get self.old.met.items next ≡ Some true }
        ensures sound { OnOk result (Arranges (row graph.now) (size graph.now) self.new) }
        ensures less { OnOk result (work_left self.new < work_left self.old) }
        ensures kept { OnOk result (ForgetsNone self.old.met.items self.new.met.items) }
    {
        self.finished.push(node)?;
        self.path.pop();
        Ok(())
    }

    /// The next node of a node's row that isn't met; `None` where all are.
    fn pass(&mut self, graph: &Graph, node: usize) -> Option<usize>
        requires sound { Arranges (row graph.now) (size graph.now) self.old }
        requires within { node < size graph.now }
        ensures sound { Arranges (row graph.now) (size graph.now) self.new }
        ensures same { self.new ≡ record self.old { passed = self.new.passed } }
        ensures edge { IfSome result (λ next. Contains (row graph.now node) next) }
        ensures new { IfSome result (λ next. slice_get self.new.met.items next ≡ Some false) }
        ensures all { IfNone result ((next : ℕ) → Contains (row graph.now node) next
            → slice_get self.new.met.items next ≡ Some true) }
    {
        let row = graph.row(node);
        let at = first_new(&self.met, row, self.passed[node]);
        self.passed[node] = at;
        node_at(row, at)
    }

    /// Goes on to the next new node that an edge of the path's last node leads to, or finishes it.
    fn step(&mut self, graph: &Graph, node: usize) -> Result<(), AllocError>
        requires sound { Arranges (row graph.now) (size graph.now) self.old }
        requires last { last_of self.old.path.items ≡ Some node }
        ensures sound { OnOk result (Arranges (row graph.now) (size graph.now) self.new) }
        ensures less { OnOk result (work_left self.new < work_left self.old) }
        ensures kept { OnOk result (ForgetsNone self.old.met.items self.new.met.items) }
    {
        let Some(next) = self.pass(graph, node) else {
            self.leave(graph, node)?;
            return Ok(());
        };
        self.enter(graph, next)?;
        Ok(())
    }

    /// The path's last node.
    fn last(&self) -> Option<usize>
        ensures { result ≡ last_of self.now.path.items }
    {
        self.path.last().copied()
    }

    /// Finishes the path's nodes.
    fn finish(&mut self, graph: &Graph) -> Result<(), AllocError>
        requires { Arranges (row graph.now) (size graph.now) self.old }
        ensures sound { OnOk result (Arranges (row graph.now) (size graph.now) self.new) }
        ensures empty { OnOk result (self.new.path.items ≡ []) }
        ensures kept { OnOk result (ForgetsNone self.old.met.items self.new.met.items) }
    {
        while let Some(node) = self.last() {
            self.step(graph, node)?;
        }
        Ok(())
    }

    /// Finishes a node and all that it leads to.
    pub(crate) fn finish_root(&mut self, graph: &Graph, root: usize) -> Result<(), AllocError>
        requires sound { Arranges (row graph.now) (size graph.now) self.old }
        requires empty { self.old.path.items ≡ [] }
        requires within { root < size graph.now }
        ensures sound { OnOk result (Arranges (row graph.now) (size graph.now) self.new) }
        ensures empty { OnOk result (self.new.path.items ≡ []) }
        ensures kept { OnOk result (ForgetsNone self.old.met.items self.new.met.items) }
        ensures met { OnOk result (slice_get self.new.met.items root ≡ Some true) }
    {
        if self.met[root] {
            return Ok(());
        }
        self.enter(graph, root)?;
        self.finish(graph)?;
        Ok(())
    }

    /// The finished nodes, the last first.
    pub(crate) fn into_order(self) -> Vec<usize>
        ensures { result.items ≡ reverse self.finished.items }
    {
        let Arrangement { mut finished, .. } = self;
        finished.reverse();
        finished
    }
}

/// The node with this index in a row; `None` past its end.
fn node_at(row: &[usize], at: usize) -> Option<usize>
    ensures { result ≡ slice_get row.now at }
{
    row.get(at).copied()
}

/// The index of the first node of a row, from an index on, that isn't met; the row's length where
/// all are.
fn first_new(met: &[bool], row: &[usize], from: usize) -> usize
    requires within { (next : ℕ) → Contains row.now next → next < length met.now }
    ensures met { (k next : ℕ) → from ≤ k → k < result → slice_get row.now k ≡ Some next
        → slice_get met.now next ≡ Some true }
    ensures least { (next : ℕ) → slice_get row.now result ≡ Some next
        → slice_get met.now next ≡ Some false }
{
    for at in from..row.len() {
        let next = row[at];
        if !met[next] {
            return at;
        }
    }
    row.len()
}
