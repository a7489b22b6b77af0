/// What sorting a graph's nodes gives.
#[derive(Drop)]
pub enum Sorted {
    /// All nodes, in an order in which every edge goes on.
    Ordered(Vec<usize>),
    /// Nodes without repeats, each with an edge to the next, and the last to the first.
    Cyclic(Vec<usize>),
}
