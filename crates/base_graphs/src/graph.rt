//! Graphs of numbered nodes: an order in which every edge goes on, or a cycle.

ghost use Rattle.std.specs.Prelude.{◌≡◌, ℕ, ◌<◌, length};
ghost use Rattle.base_graphs.specs.Rows.{AreWithin};

/// A graph: its nodes are numbered from 0, and each has a row of the nodes that its edges lead to.
#[derive(Drop)]
pub struct Graph {
    rows: Vec<Vec<usize>>,
    ghost within: { AreWithin rows.items },
}

impl Graph {
    ghost use Rattle.base_graphs.specs.Graph.{row, size};
    ghost use Rattle.base_graphs.specs.Rows.{targets_in};

    /// The graph of these rows.
    pub fn new(rows: Vec<Vec<usize>>) -> Graph
        requires { AreWithin rows.items }
        ensures size { size result ≡ length rows.items }
        ensures rows { (node : ℕ) → row result node ≡ targets_in rows.items node }
    {
        Graph { rows }
    }

    /// How many nodes it has.
    pub fn size(&self) -> usize
        ensures { result ≡ size self.now }
    {
        self.rows.len()
    }

    /// The nodes that the edges of a node lead to.
    pub fn row(&self, node: usize) -> &[usize]
        requires { node < size self.now }
        ensures { result.now ≡ row self.now node }
    {
        &self.rows[node]
    }
}
