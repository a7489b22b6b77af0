ghost use Rattle.std.specs.Prelude.{◌≡◌, ℕ, ◌<◌, ◌≤◌, ◌≢◌, [], length, slice_get, Some, IfOk};
ghost use Rattle.std.specs.Prelude.{IfSome, IfNone, OnOk, Contains, reverse};
ghost use Rattle.base_graphs.specs.declared.progress.Progress.TheVariants.{New, Open, Finished};

use crate::graph::Graph;
use crate::progress::Progress;
use std::alloc::{AllocError, Global};

/// A depth-first search of a graph.
#[derive(Drop)]
pub struct Search {
    /// How far it has come with each node.
    pub states: Vec<Progress>,
    /// How many nodes of each node's row it has passed.
    pub passed: Vec<usize>,
    /// The nodes from the root on whose edges it follows.
    pub path: Vec<usize>,
    /// The nodes that it has finished, in order.
    pub finished: Vec<usize>,
}

impl Search {
    ghost use Rattle.base_graphs.specs.Graph.{row, size, IsCycle};
    ghost use Rattle.base_graphs.specs.Search.{Searches, work_left, ForgetsNone, last_of};

    /// A search that hasn't begun.
    pub fn new(alloc: Global, graph: &Graph) -> Result<Search, AllocError>
        ensures sound { IfOk result (λ search. Searches (row graph.now) (size graph.now) search) }
        ensures empty { IfOk result (λ search. search.path.items ≡ []) }
    {
        let size = graph.size();
        let states = vec![in alloc; Progress::New; size]?;
        let passed = vec![in alloc; 0; size]?;
        Ok(Search {
            states,
            passed,
            path: Vec::new(alloc),
            finished: Vec::new(alloc),
        })
    }

    /// How far it has come with a node.
    fn state(&self, node: usize) -> Progress
        requires { node < length self.now.states.items }
        ensures { slice_get self.now.states.items node ≡ Some result }
    {
        self.states[node]
    }

    /// Goes on to a new node, to which an edge of the path's last node leads, if it has one.
    #[tactic(auto, using(std::proofs::lemmas::Grind::elements))]
    pub fn enter(&mut self, graph: &Graph, node: usize) -> Result<(), AllocError>
        requires sound { Searches (row graph.now) (size graph.now) self.old }
        requires new { slice_get self.old.states.items node ≡ Some New }
        requires linked { (last : ℕ) → last_of self.old.path.items ≡ Some last
            → Contains (row graph.now last) node }
        ensures sound { OnOk result (Searches (row graph.now) (size graph.now) self.new) }
        ensures less { OnOk result (work_left self.new < work_left self.old) }
        ensures kept { OnOk result (ForgetsNone self.old.states.items self.new.states.items) }
        ensures met { OnOk result (slice_get self.new.states.items node ≢ Some New) }
    {
        self.path.push(node)?;
        self.states[node] = Progress::Open;
        Ok(())
    }

    /// Finishes the path's last node, all of whose edges lead to finished nodes.
    fn leave(&mut self, graph: &Graph, node: usize) -> Result<(), AllocError>
        requires sound { Searches (row graph.now) (size graph.now) self.old }
        requires last { last_of self.old.path.items ≡ Some node }
        requires all { (next : ℕ) → Contains (row graph.now node) next
            → slice_get self.old.states.items next ≡ Some Finished }
        ensures sound { OnOk result (Searches (row graph.now) (size graph.now) self.new) }
        ensures less { OnOk result (work_left self.new < work_left self.old) }
        ensures kept { OnOk result (ForgetsNone self.old.states.items self.new.states.items) }
    {
        self.finished.push(node)?;
        self.path.pop();
        self.states[node] = Progress::Finished;
        Ok(())
    }

    /// The next node of a node's row that isn't finished; `None` where all are.
    #[tactic(auto, using(std::proofs::lemmas::Grind::elements))]
    fn pass(&mut self, graph: &Graph, node: usize) -> Option<usize>
        requires sound { Searches (row graph.now) (size graph.now) self.old }
        requires within { node < size graph.now }
        ensures sound { Searches (row graph.now) (size graph.now) self.new }
        ensures same { self.new ≡ record self.old { passed = self.new.passed } }
        ensures edge { IfSome result (λ next. Contains (row graph.now node) next) }
        ensures unfinished { IfSome result (λ next.
            slice_get self.new.states.items next ≢ Some Finished) }
        ensures all { IfNone result ((next : ℕ) → Contains (row graph.now node) next
            → slice_get self.new.states.items next ≡ Some Finished) }
    {
        let row = graph.row(node);
        let at = first_unfinished(&self.states, row, self.passed[node]);
        self.passed[node] = at;
        node_at(row, at)
    }

    /// The cycle that an edge from the path's last node to an open one closes.
    fn cycle(&self, alloc: Global, graph: &Graph, first: usize) -> Result<Vec<usize>, AllocError>
        requires sound { Searches (row graph.now) (size graph.now) self.now }
        requires open { slice_get self.now.states.items first ≡ Some Open }
        requires edge { (last : ℕ) → last_of self.now.path.items ≡ Some last
            → Contains (row graph.now last) first }
        ensures { IfOk result (λ cycle. IsCycle (row graph.now) (size graph.now) cycle.items) }
    {
        let at = place_of(&self.path, first);
        Vec::from_slice(alloc, &self.path[at..])
    }

    /// Follows the next edge of the path's last node, or finishes it; a cycle where the edge closes
    /// one.
    fn step(
        &mut self,
        alloc: Global,
        graph: &Graph,
        node: usize,
    ) -> Result<Option<Vec<usize>>, AllocError>
        requires sound { Searches (row graph.now) (size graph.now) self.old }
        requires last { last_of self.old.path.items ≡ Some node }
        ensures sound { IfOk result (λ found. IfNone found
            (Searches (row graph.now) (size graph.now) self.new)) }
        ensures less { IfOk result (λ found. IfNone found
            (work_left self.new < work_left self.old)) }
        ensures kept { IfOk result (λ found. IfNone found
            (ForgetsNone self.old.states.items self.new.states.items)) }
        ensures cycle { IfOk result (λ found. IfSome found
            (λ cycle. IsCycle (row graph.now) (size graph.now) cycle.items)) }
    {
        let Some(next) = self.pass(graph, node) else {
            self.leave(graph, node)?;
            return Ok(None);
        };
        match self.state(next) {
            Progress::New => {
                self.enter(graph, next)?;
                Ok(None)
            }
            Progress::Open => {
                let cycle = self.cycle(alloc, graph, next)?;
                Ok(Some(cycle))
            }
            Progress::Finished => unreachable!(),
        }
    }

    /// The path's last node.
    fn last(&self) -> Option<usize>
        ensures { result ≡ last_of self.now.path.items }
    {
        self.path.last().copied()
    }

    /// Finishes the path's nodes; a cycle where one is met.
    #[tactic(auto, using(std::proofs::lemmas::Grind::elements))]
    fn finish(&mut self, alloc: Global, graph: &Graph) -> Result<Option<Vec<usize>>, AllocError>
        requires { Searches (row graph.now) (size graph.now) self.old }
        ensures sound { IfOk result (λ found. IfNone found
            (Searches (row graph.now) (size graph.now) self.new)) }
        ensures empty { IfOk result (λ found. IfNone found (self.new.path.items ≡ [])) }
        ensures kept { IfOk result (λ found. IfNone found
            (ForgetsNone self.old.states.items self.new.states.items)) }
        ensures cycle { IfOk result (λ found. IfSome found
            (λ cycle. IsCycle (row graph.now) (size graph.now) cycle.items)) }
    {
        while let Some(node) = self.last() {
            if let Some(cycle) = self.step(alloc, graph, node)? {
                return Ok(Some(cycle));
            }
        }
        Ok(None)
    }

    /// Finishes a node and all that it leads to; a cycle where one is met.
    pub fn finish_root(
        &mut self,
        alloc: Global,
        graph: &Graph,
        root: usize,
    ) -> Result<Option<Vec<usize>>, AllocError>
        requires sound { Searches (row graph.now) (size graph.now) self.old }
        requires empty { self.old.path.items ≡ [] }
        requires within { root < size graph.now }
        ensures sound { IfOk result (λ found. IfNone found
            (Searches (row graph.now) (size graph.now) self.new)) }
        ensures empty { IfOk result (λ found. IfNone found (self.new.path.items ≡ [])) }
        ensures kept { IfOk result (λ found. IfNone found
            (ForgetsNone self.old.states.items self.new.states.items)) }
        ensures met { IfOk result (λ found. IfNone found
            (slice_get self.new.states.items root ≢ Some New)) }
        ensures cycle { IfOk result (λ found. IfSome found
            (λ cycle. IsCycle (row graph.now) (size graph.now) cycle.items)) }
    {
        match self.state(root) {
            Progress::New => {
                self.enter(graph, root)?;
                self.finish(alloc, graph)
            }
            Progress::Open | Progress::Finished => Ok(None),
        }
    }

    /// The finished nodes, the last first.
    pub fn into_order(self) -> Vec<usize>
        ensures { result.items ≡ reverse self.finished.items }
    {
        let Search { mut finished, .. } = self;
        finished.reverse();
        finished
    }
}

/// Where a node stands on a path.
#[tactic(auto, using(std::proofs::lemmas::Grind::elements))]
fn place_of(path: &[usize], node: usize) -> usize
    requires { Contains path.now node }
    ensures here { slice_get path.now result ≡ Some node }
    ensures inside { result < length path.now }
{
    for (at, other) in path.iter().enumerate() {
        if *other == node {
            return at;
        }
    }
    unreachable!()
}

/// The node with this index in a row; `None` past its end.
fn node_at(row: &[usize], at: usize) -> Option<usize>
    ensures { result ≡ slice_get row.now at }
{
    row.get(at).copied()
}

/// The index of the first node of a row, from an index on, that isn't finished; the row's length
/// where all are.
#[tactic(auto, using(std::proofs::lemmas::Grind::elements))]
fn first_unfinished(states: &[Progress], row: &[usize], from: usize) -> usize
    requires within { (next : ℕ) → Contains row.now next → next < length states.now }
    ensures finished { (k next : ℕ) → from ≤ k → k < result → slice_get row.now k ≡ Some next
        → slice_get states.now next ≡ Some Finished }
    ensures least { (next : ℕ) → slice_get row.now result ≡ Some next
        → slice_get states.now next ≢ Some Finished }
{
    for at in from..row.len() {
        let next = row[at];
        if !states[next].is_finished() {
            return at;
        }
    }
    row.len()
}
