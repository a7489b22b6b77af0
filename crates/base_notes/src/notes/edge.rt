ghost use Rattle.std.specs.Prelude.{◌≡◌};
ghost use Rattle.base_notes.specs.Edges.{leads};

use base_words::Location;

/// A step from one location to another: an edge of the flow graph, or one that a mark names.
#[derive(Clone, Copy, Debug, PartialEq, Eq)]
pub struct Edge {
    /// The location that it leads from.
    pub from: Location,
    /// The location that it leads to.
    pub onto: Location,
}

impl Edge {
    ghost use Rattle.base_notes.specs.EdgeOf.{edge_of};

    /// Whether it leads from the one location to the other.
    pub fn leads(&self, from: Location, onto: Location) -> bool
        ensures { result ≡ leads from.number onto.number (edge_of self.now) }
    {
        self.from.number == from.number && self.onto.number == onto.number
    }
}
