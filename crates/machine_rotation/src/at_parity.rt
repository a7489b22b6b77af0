ghost use Rattle.std.specs.Prelude.{◌≡◌};

use crate::clockwork::Clockwork;
use base_words::Parity;

/// The wait until the drum is at an angle of a parity: one word time at most.
#[derive(Clone, Copy)]
pub struct AtParity {
    /// The parity of the angle.
    pub parity: Parity,
}

impl AtParity {
    /// The wait for an angle of this parity.
    pub fn new(parity: Parity) -> AtParity
        ensures { result.parity ≡ parity }
    {
        AtParity { parity }
    }
}

impl Clockwork for AtParity {
    ghost use Rattle.machine_rotation.specs.Moment.{first};
    ghost use Rattle.machine_rotation.specs.Available.{has_parity};
    ghost use Rattle.machine_rotation.specs.Span.{parity_span};
    ghost use Rattle.machine_rotation.specs.Recurs.{never_earlier as earlier_law};
    ghost use Rattle.machine_rotation.specs.Recurs.{within_span as span_law};
    ghost use Rattle.machine_rotation.specs.Recurs.{monotone as monotone_law};
    ghost use Rattle.machine_rotation.specs.Recurs.{periodic as periodic_law};
    ghost use Rattle.machine_rotation.specs.Waits.{parity_recurs};

    ghost moment = { λ at clock. first (has_parity at.parity) clock };

    ghost most = { λ at. parity_span at.parity };

    ghost never_earlier = { λ at. earlier_law (parity_recurs at.parity) };

    ghost within_span = { λ at. span_law (parity_recurs at.parity) };

    ghost monotone = { λ at. monotone_law (parity_recurs at.parity) };

    ghost periodic = { λ at. periodic_law (parity_recurs at.parity) };

    fn go(&self, clock: u64) -> u64 {
        match self.parity {
            Parity::Any => clock,
            Parity::Even => clock + clock % 2,
            Parity::Odd => clock + (clock + 1) % 2,
        }
    }

    fn span(&self) -> u64 {
        match self.parity {
            Parity::Any => 0,
            Parity::Even | Parity::Odd => 1,
        }
    }
}
