//! Whether a loop stands inside several ways back of one loop: edges of different marks that go
//! back to one location.

ghost use Rattle.std.specs.Prelude.{◌≡◌, ◌↔◌, IsTrue, IfOk, map};
ghost use Rattle.std.specs.List.{list_any};
ghost use Rattle.base_notes.specs.EdgeOf.{edge_of};
ghost use Rattle.flow_graph.specs.Taken.{is_among};
ghost use Rattle.check_deck.specs.FindingsOf.{IsInsideIn};
ghost use Rattle.check_deck.specs.KnownInside.{AreKnown};
ghost use Rattle.check_deck.specs.Insides.{AreHeads, HasSeveralWays, IsRound};

use crate::nested::is_round;
use crate::nesting::Nesting;
use base_notes::{Edge, Edges};
use base_words::Location;
use std::alloc::{AllocError, Global};

/// Where those of some edges go back to inside whose loop that of a mark stands.
fn heads_round(
    alloc: Global,
    nesting: &Nesting<'_>,
    edges: &[Edge],
    mark: &[Edge],
) -> Result<Vec<Location>, AllocError>
    requires { AreKnown nesting.now }
    ensures { IfOk result (λ heads. AreHeads
        (IsRound (IsInsideIn nesting.now.flow.now) (map edge_of mark.now))
        (map edge_of edges.now) (map (λ head. head.number) heads.items)) }
{
    let mut heads = Vec::new(alloc);
    for outer in edges {
        if !is_round(alloc, nesting, *outer, mark)? {
            continue;
        }
        heads.push(outer.onto)?;
    }
    Ok(heads)
}

/// Whether this is one of some locations.
pub fn is_one_of(places: &[Location], place: Location) -> bool
    ensures { result ≡ is_among (map (λ one. one.number) places.now) place.number }
{
    for one in places {
        if one.number() == place.number() {
            return true;
        }
    }
    false
}

/// Whether some location is one of these, and one of those.
fn have_common(these: &[Location], those: &[Location]) -> bool
    ensures { result ≡ list_any (is_among (map (λ one. one.number) these.now))
        (map (λ one. one.number) those.now) }
{
    for place in those {
        if is_one_of(these, *place) {
            return true;
        }
    }
    false
}

/// Whether the loop of a mark stands inside loops of two of these marks that go back to one
/// location.
pub fn has_several_ways(
    alloc: Global,
    nesting: &Nesting<'_>,
    marks: &[Edges],
    mark: &[Edge],
) -> Result<bool, AllocError>
    requires { AreKnown nesting.now }
    ensures { IfOk result (λ several. IsTrue several ↔ HasSeveralWays
        (IsRound (IsInsideIn nesting.now.flow.now) (map edge_of mark.now)) marks.now) }
{
    let mut seen = Vec::new(alloc);
    for other in marks {
        let heads = heads_round(alloc, nesting, other.all(), mark)?;
        if have_common(&seen, &heads) {
            return Ok(true);
        }
        seen.extend_from_slice(&heads)?;
    }
    Ok(false)
}
