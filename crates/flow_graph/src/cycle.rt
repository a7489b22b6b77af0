ghost use Rattle.std.specs.Prelude.{◌<◌, ◌≤◌, length, map, vec_len};
ghost use Rattle.flow_graph.specs.Turned.{IsLeastAt, IsTurned};

use base_words::Location;

/// Locations, each with an edge free of marks to the next, and the last with one to the first. The
/// smallest is the first. None is there twice with the same open at the exits of calls.
#[derive(Debug, Drop, PartialEq, Eq)]
pub struct Cycle {
    /// The locations, 65,536 at most.
    pub locations: Vec<Location>,
    pub ghost few: { vec_len locations ≤ 65536 },
}

impl Cycle {
    /// The cycle of these locations, turned so that the smallest is the first.
    pub fn turned(mut locations: Vec<Location>) -> Cycle
        requires some { 0 < vec_len locations }
        requires few { vec_len locations ≤ 65536 }
        ensures { IsTurned (map (λ location. location.number) locations.items)
            (map (λ location. location.number) result.locations.items) }
    {
        let smallest = place_of_smallest(&locations);
        locations.rotate_left(smallest);
        Cycle { locations }
    }
}

/// Where the smallest of some locations stands.
fn place_of_smallest(locations: &[Location]) -> usize
    requires { 0 < length locations.now }
    ensures within { result < length locations.now }
    ensures least { IsLeastAt (map (λ location. location.number) locations.now) result }
{
    let mut smallest = 0;
    for (place, location) in locations.iter().enumerate() {
        if location.number < locations[smallest].number {
            smallest = place;
        }
    }
    smallest
}
