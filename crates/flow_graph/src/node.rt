use base_words::Location;

/// A node of the flow graph: a location, with what is open there at the exits of calls.
#[derive(Clone, Copy, Debug, PartialEq, Eq, Hash)]
pub struct Node {
    /// The location.
    pub location: Location,
    /// What is open there, by its index among all that is open at the nodes of the graph.
    pub opening: usize,
}
