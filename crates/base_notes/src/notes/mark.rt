//! Bounds on how often a program goes along edges.

ghost use Rattle.std.specs.Prelude.{◌≡◌, ◌≤◌, ◌<◌, length, IfSome};

use super::edge::Edge;
use super::edges::Edges;
use super::name::Name;
use base_words::Location;

/// A mark: a bound on how often a program goes along one edge, that is from one location to
/// another, or along several edges, counted together.
#[derive(Debug, Drop)]
pub struct Mark {
    /// Where its first edge begins: the location of the step that passes the mark.
    pub from: Location,
    /// Where its first edge leads: the location at which that step goes on.
    pub onto: Location,
    /// Its other edges, if it has any.
    pub others: Edges,
    /// How often it is passed at most, 0 to 9999, along its edges together, since the last pass of
    /// a mark that it stands inside of, directly or through others, or since the beginning of the
    /// run.
    pub most: u16,
    /// The index, from 0, of the earlier mark that it stands inside of, if there is one.
    pub inside: Option<usize>,
    /// Its name, if it has one.
    pub name: Option<Name>,
    pub ghost four_digits: { most ≤ 9999 },
}

impl Mark {
    ghost use Rattle.base_notes.specs.EdgeOf.{edge_of};
    ghost use Rattle.base_notes.specs.Short.{is_plain};
    ghost use Rattle.base_notes.specs.Marks.{is_on as stands_on, mark_on};

    /// How many marks notes have at most.
    pub const MOST: usize = 64;

    /// How many marks short notes have at most.
    pub const MOST_SHORT: usize = 8;

    /// How many edges a mark of long notes lists at most.
    pub const MOST_EDGES: usize = 64;

    /// Its first edge.
    pub fn first(&self) -> Edge
        ensures from { result.from ≡ self.now.from }
        ensures onto { result.onto ≡ self.now.onto }
    {
        Edge {
            from: self.from,
            onto: self.onto,
        }
    }

    /// Whether it has one edge, and no name.
    pub fn is_plain(&self) -> bool
        ensures { result ≡ is_plain self.now }
    {
        self.others.is_empty() && self.name.is_none()
    }

    /// Whether it stands on the edge from the one location to the other.
    pub fn is_on(&self, from: Location, onto: Location) -> bool
        ensures { result ≡ stands_on self.now from.number onto.number }
    {
        self.first().leads(from, onto) || self.others.have(from, onto)
    }

    /// The index, from 0, of the first of these marks that stands on the edge from the one location
    /// to the other; `None` where none does.
    pub fn on_edge(marks: &[Mark], from: Location, onto: Location) -> Option<usize>
        ensures value { result ≡ mark_on marks.now from.number onto.number }
        ensures inside { IfSome result (λ place. place < length marks.now) }
    {
        for (place, mark) in marks.iter().enumerate() {
            if mark.is_on(from, onto) {
                return Some(place);
            }
        }
        None
    }
}
