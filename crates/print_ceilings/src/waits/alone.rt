//! A hop of a piece, as it is told alone.

ghost use Rattle.std.specs.Prelude.{◌≡◌};
ghost use Rattle.flow_walks.specs.Pieces.{seen_placed};
ghost use Rattle.print_hops.specs.TimedHop.{seen_timed};
ghost use Rattle.print_ceilings.specs.RoundsText.{from_to};

use flow_walks::Placed;
use print_hops::TimedHop;

/// A hop of a piece, begun at time 0, that takes so many word times.
pub fn alone(one: Placed, took: u64) -> TimedHop
    ensures told { seen_timed result ≡ from_to 0 took (seen_placed one) }
    ensures at_once { result.begun ≡ 0 }
{
    TimedHop {
        place: one.location,
        instruction: one.hop.instruction,
        way: one.hop.way,
        begun: 0,
        ended: took,
    }
}
