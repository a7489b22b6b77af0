use base_words::{Instruction, Location};
use flow_walks::Visit;
use machine_steps::Way;

/// What the hops of one kind have in common: where they begin, their instruction, and how they end.
#[derive(Clone, Copy, PartialEq, Eq, Hash)]
pub struct Kind {
    /// Where they begin.
    pub place: Location,
    /// Their instruction.
    pub instruction: Instruction,
    /// How they end.
    pub way: Way,
}

impl Kind {
    ghost use Rattle.std.specs.Prelude.{◌≡◌};
    ghost use Rattle.print_hops.specs.KindsOf.{kind_of};

    /// The kind of a hop.
    pub fn of(visit: &Visit) -> Kind
        ensures { result ≡ kind_of visit.now }
    {
        Kind {
            place: visit.place,
            instruction: visit.instruction,
            way: visit.way,
        }
    }
}
