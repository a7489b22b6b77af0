ghost use Rattle.std.specs.Prelude.{◌≡◌, [], ◌∷◌, ◌<◌, ◌≤◌, map, option_map, slice_get, length};
ghost use Rattle.std.specs.Prelude.{Some, Contains, IfOk, IfSome, IfNone, OnOk};
ghost use Rattle.base_graphs.specs.Graph.{AreDifferent};
ghost use Rattle.flow_graph.specs.Executed.{with_new};
ghost use Rattle.flow_graph.specs.Found.{places_of};

use base_graphs::Distinct;
use base_words::Location;
use std::alloc::{AllocError, Global};

/// Locations without repeats, in the order in which they are found: the executed ones, or the
/// successors of one.
#[derive(Debug, Drop)]
pub struct LocationSet {
    locations: Distinct<Location>,
}

impl LocationSet {
    /// The list without any location.
    pub fn none(alloc: Global) -> LocationSet
        ensures { places_of result ≡ [] }
    {
        LocationSet {
            locations: Distinct::none(alloc),
        }
    }

    /// The list of the start alone.
    pub fn new(alloc: Global, start: Location) -> Result<LocationSet, AllocError>
        ensures { IfOk result (λ executed. places_of executed ≡ start.number ∷ []) }
    {
        let mut locations = Distinct::none(alloc);
        locations.add(start)?;
        Ok(LocationSet { locations })
    }

    /// Adds a location, unless it is there.
    pub fn add(&mut self, location: Location) -> Result<(), AllocError>
        ensures { OnOk result (places_of self.new
            ≡ with_new (places_of self.old) (location.number ∷ [])) }
    {
        self.locations.add(location)?;
        Ok(())
    }

    /// The location at an index of the order, from 0; `None` past its end.
    pub fn get(&self, place: usize) -> Option<Location>
        ensures value { option_map (λ location. location.number) result
            ≡ slice_get (places_of self.now) place }
        ensures few { IfSome result (λ location. place < 2004) }
    {
        self.locations().get(place).copied()
    }

    /// The locations, in order.
    pub fn locations(&self) -> &[Location]
        ensures all { map (λ location. location.number) result.now ≡ places_of self.now }
        ensures different { AreDifferent (places_of self.now) }
        ensures few { length (places_of self.now) ≤ 2004 }
    {
        self.locations.as_slice()
    }

    /// The index of a location in the order; `None` for one that isn't there.
    pub fn index_of(&self, location: Location) -> Option<usize>
        ensures found { IfSome result (λ index.
            slice_get (places_of self.now) index ≡ Some location.number) }
        ensures none { IfNone result (¬ Contains (places_of self.now) location.number) }
    {
        self.locations.index_of(location)
    }
}
