ghost use Rattle.std.specs.Prelude.{◌≡◌};

use crate::at_angle::AtAngle;
use crate::at_parity::AtParity;
use crate::clockwork::Clockwork;
use base_words::{Kind, Location, Parity, REVOLUTION};

/// The wait until the word at a location can be had: a drum word at its angle, 8000 and 8001 at
/// once, 8002 at even angles, 8003 at odd ones.
///
/// Source: the IBM 650 Manual of Operation, of drum words alone.
#[derive(Clone, Copy)]
pub struct Seek {
    /// The location that is sought.
    pub location: Location,
}

impl Seek {
    /// The wait for the word at this location.
    pub fn of(location: Location) -> Seek
        ensures { result.location ≡ location }
    {
        Seek { location }
    }
}

impl Clockwork for Seek {
    ghost use Rattle.machine_rotation.specs.Moment.{first};
    ghost use Rattle.machine_rotation.specs.Available.{is_available};
    ghost use Rattle.base_words.specs.Kind.{kind_of};
    ghost use Rattle.machine_rotation.specs.Span.{kind_span};
    ghost use Rattle.machine_rotation.specs.Recurs.{never_earlier as earlier_law};
    ghost use Rattle.machine_rotation.specs.Recurs.{within_span as span_law};
    ghost use Rattle.machine_rotation.specs.Recurs.{monotone as monotone_law};
    ghost use Rattle.machine_rotation.specs.Recurs.{periodic as periodic_law};
    ghost use Rattle.machine_rotation.specs.Waits.{available_recurs};

    ghost moment = { λ seek clock. first (is_available seek.location.number) clock };

    ghost most = { λ seek. kind_span (kind_of seek.location.number) };

    ghost never_earlier = { λ seek. earlier_law (available_recurs seek.location.number) };

    ghost within_span = { λ seek. span_law (available_recurs seek.location.number) };

    ghost monotone = { λ seek. monotone_law (available_recurs seek.location.number) };

    ghost periodic = { λ seek. periodic_law (available_recurs seek.location.number) };

    fn go(&self, clock: u64) -> u64 {
        match self.location.kind() {
            Kind::Drum => {
                let angle = (u64::from(self.location.number) % REVOLUTION) as u8;
                AtAngle { angle }.go(clock)
            }
            Kind::Switches | Kind::Distributor => clock,
            Kind::Lower => AtParity::new(Parity::Even).go(clock),
            Kind::Upper => AtParity::new(Parity::Odd).go(clock),
        }
    }

    fn span(&self) -> u64 {
        match self.location.kind() {
            Kind::Drum => 49,
            Kind::Switches | Kind::Distributor => 0,
            Kind::Lower | Kind::Upper => 1,
        }
    }
}
