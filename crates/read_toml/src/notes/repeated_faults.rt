//! The edges that an earlier one is, and the lists for the location of an earlier one.
ghost use Rattle.std.specs.Prelude.{◌≡◌, ◌∷◌, [], if◌then◌else◌, map, flat_map, codes, IfOk};
ghost use Rattle.base_notes.specs.EdgeOf.{edge_of};
ghost use Rattle.base_notes.specs.Marks.{edges_of as edges_of_mark};
ghost use Rattle.read_toml.specs.AllFaults.{Adds};
ghost use Rattle.read_toml.specs.Document as document;
ghost use Rattle.read_toml.specs.Document.{two_marks, two_lists};
ghost use Rattle.read_toml.specs.NotesDocument as said;
ghost use Rattle.toml.specs.View.{view, table_view, items_view};

use crate::document::faults::Faults;
use crate::document::fields::{Fields, items};
use crate::document::values::location_at;
use base_notes::{Edge, Mark, NoteFault};
use base_words::Location;
use std::alloc::{AllocError, Global};
use toml::Value;

/// The edges of marks, in order.
fn edges_of(alloc: Global, marks: &[Mark]) -> Result<Vec<Edge>, AllocError>
    ensures { IfOk result (λ edges. map edge_of edges.items ≡ flat_map edges_of_mark marks.now) }
{
    let mut edges = Vec::new(alloc);
    for mark in marks {
        edges.push(mark.first())?;
        edges.extend_from_slice(mark.others.all())?;
    }
    Ok(edges)
}

/// Whether an edge is among these.
fn has_edge(edges: &[Edge], edge: Edge) -> bool
    ensures { result ≡ said.has_edge (map edge_of edges.now) (edge_of edge) }
{
    for one in edges {
        if one.leads(edge.from, edge.onto) {
            return true;
        }
    }
    false
}

impl Faults {
    /// Adds each edge of these marks that an earlier one is.
    pub fn second_edges(&mut self, alloc: Global, marks: &[Mark]) -> Result<(), AllocError>
        ensures { IfOk result (λ _. Adds self.old.all.items self.new.all.items
            (said.edge_faults [] (flat_map edges_of_mark marks.now))) }
    {
        let edges = edges_of(alloc, marks)?;
        self.each_second(&edges)?;
        Ok(())
    }

    /// Adds each edge that an earlier one is.
    fn each_second(&mut self, edges: &[Edge]) -> Result<(), AllocError>
        ensures { IfOk result (λ _. Adds self.old.all.items self.new.all.items
            (said.edge_faults [] (map edge_of edges.now))) }
    {
        for (place, edge) in edges.iter().enumerate() {
            let again = has_edge(&edges[..place], *edge);
            self.second_edge(again, *edge)?;
        }
        Ok(())
    }

    /// Adds an edge that is there again.
    fn second_edge(&mut self, again: bool, edge: Edge) -> Result<(), AllocError>
        ensures { IfOk result (λ _. Adds self.old.all.items self.new.all.items
            (if again then two_marks edge.from.number edge.onto.number ∷ [] else [])) }
    {
        if again {
            self.add(NoteFault::TwoMarks(edge.from, edge.onto))?;
        }
        Ok(())
    }

    /// Adds each list of a document for whose location an earlier one is.
    pub fn repeated_lists(&mut self, top: &Fields<'_>) -> Result<(), AllocError>
        ensures { IfOk result (λ _. Adds self.old.all.items self.new.all.items
            (said.repeated_locations (table_view top.now.table.now))) }
    {
        let places = places_of(top.alloc, items(top.table, "list"))?;
        self.second_places(top.alloc, &places)?;
        Ok(())
    }

    /// Adds each location that an earlier one is.
    fn second_places(&mut self, alloc: Global, places: &[Location]) -> Result<(), AllocError>
        ensures { IfOk result (λ _. Adds self.old.all.items self.new.all.items
            (said.location_faults [] (map (λ place. place.number) places.now))) }
    {
        let mut seen = vec![in alloc; false; Location::NUMBERS]?;
        for place in places {
            let number = place.number as usize;
            self.second_place(seen[number], *place)?;
            seen[number] = true;
        }
        Ok(())
    }

    /// Adds a location that is there again.
    fn second_place(&mut self, again: bool, place: Location) -> Result<(), AllocError>
        ensures { IfOk result (λ _. Adds self.old.all.items self.new.all.items
            (if again then two_lists place.number ∷ [] else [])) }
    {
        if again {
            self.add(NoteFault::TwoLists(place))?;
        }
        Ok(())
    }
}

/// The locations that some elements are for.
fn places_of(alloc: Global, items: &[Value]) -> Result<Vec<Location>, AllocError>
    ensures { IfOk result (λ places. map (λ place. place.number) places.items
        ≡ flat_map (document.locations_at (codes "location"))
        (said.tables_of (items_view items.now))) }
{
    let mut places = Vec::new(alloc);
    for item in items {
        if let Some(place) = listed_location(item) {
            places.push(place)?;
        }
    }
    Ok(places)
}

/// The location that an element is for, if it says one.
fn listed_location(item: &Value) -> Option<Location>
    ensures { flat_map (document.locations_at (codes "location")) (said.table_of (view item.now))
        ≡ document.numbers_of result }
{
    location_at(item.as_table()?, "location")
}
