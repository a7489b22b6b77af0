//! A hop as its line tells it.

ghost use Rattle.std.specs.Prelude.{◌≡◌, ◌^◌, ◌<◌};
ghost use Rattle.flow_walks.specs.Visited.{seen_visit};
ghost use Rattle.print_hops.specs.TimedHop.{seen_timed};

use base_words::{Instruction, Location};
use flow_walks::Visit;
use machine_steps::Way;

/// A hop as its line tells it: of a walk, of a step that is handed in, or of a piece. A step may
/// end at any moment, so it is no [`Visit`].
#[derive(Clone, Copy)]
pub struct TimedHop {
    /// Where it begins.
    pub place: Location,
    /// The instruction there.
    pub instruction: Instruction,
    /// How it ends.
    pub way: Way,
    /// The word times used when it begins.
    pub begun: u64,
    /// The word times used when it ends.
    pub ended: u64,
}

impl TimedHop {
    /// A hop of a walk.
    pub fn of(visit: &Visit) -> TimedHop
        ensures same { seen_timed result ≡ seen_visit visit.now }
        ensures early { result.begun < 2 ^ 50 }
    {
        TimedHop {
            place: visit.place,
            instruction: visit.instruction,
            way: visit.way,
            begun: visit.begun,
            ended: visit.ended(),
        }
    }
}
