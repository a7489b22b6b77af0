//! Edges in a list: those of a mark behind its first, or of several marks.

ghost use Rattle.std.specs.Prelude.{◌≡◌, ◌==◌, [], length, map};
ghost use Rattle.std.specs.List.{list_any};
ghost use Rattle.base_notes.specs.Edges.{leads};
ghost use Rattle.base_notes.specs.EdgeOf.{edge_of};

use super::edge::Edge;
use base_words::Location;
use std::alloc::Global;
use std::marker::Model;

/// Edges in order, as those of a mark but its first.
#[derive(Debug, Drop)]
pub struct Edges {
    list: Vec<Edge>,
}

impl Model for Edges {
    ghost use Rattle.std.specs.Prelude.{List, ℕ, map};

    ghost Value = { List (ℕ × ℕ) };

    ghost use Rattle.base_notes.specs.EdgeOf.{edge_of};

    ghost view = { λ edges. map edge_of edges.list.items };
}

impl Edges {
    /// No edges.
    pub fn none(alloc: Global) -> Edges
        ensures { result ≡ [] }
    {
        Edges {
            list: Vec::new(alloc),
        }
    }

    /// These edges, in order.
    pub fn new(list: Vec<Edge>) -> Edges
        ensures { result ≡ map edge_of list.items }
    {
        Edges { list }
    }

    /// The edges, in order.
    pub fn all(&self) -> &[Edge]
        ensures { map edge_of result.now ≡ self.now }
    {
        &self.list
    }

    /// Whether there are none.
    pub fn is_empty(&self) -> bool
        ensures { result ≡ (length self.now == 0) }
    {
        self.all().is_empty()
    }

    /// Whether one of them leads from the one location to the other.
    pub fn have(&self, from: Location, onto: Location) -> bool
        ensures { result ≡ list_any (leads from.number onto.number) self.now }
    {
        for edge in self.all() {
            if edge.leads(from, onto) {
                return true;
            }
        }
        false
    }
}
