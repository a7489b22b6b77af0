ghost use Rattle.std.specs.Prelude.{◌≡◌, ◌+◌, ◌<◌, ◌↔◌, IsSome, IfSome};

use crate::clockwork::Clockwork;
use base_words::REVOLUTION;

/// The wait until the drum is at an angle: 0 to 49 word times.
#[derive(Clone, Copy)]
pub struct AtAngle {
    /// The angle, below 50.
    pub angle: u8,
    pub ghost on_drum: { angle < 50 },
}

impl AtAngle {
    /// The wait for this angle; `None` from 50 on.
    pub fn new(angle: u8) -> Option<AtAngle>
        ensures valid { IsSome result ↔ (angle < 50) }
        ensures value { IfSome result (λ at. at.angle ≡ angle) }
    {
        if u64::from(angle) < REVOLUTION {
            Some(AtAngle { angle })
        } else {
            None
        }
    }
}

impl Clockwork for AtAngle {
    ghost use Rattle.machine_rotation.specs.Moment.{first};
    ghost use Rattle.machine_rotation.specs.Available.{is_angle};
    ghost use Rattle.machine_rotation.specs.Recurs.{never_earlier as earlier_law};
    ghost use Rattle.machine_rotation.specs.Recurs.{within_span as span_law};
    ghost use Rattle.machine_rotation.specs.Recurs.{monotone as monotone_law};
    ghost use Rattle.machine_rotation.specs.Recurs.{periodic as periodic_law};
    ghost use Rattle.machine_rotation.specs.Waits.{angle_recurs};

    ghost moment = { λ at clock. first (is_angle at.angle) clock };

    ghost most = { λ _. 49 };

    ghost never_earlier = { λ at. earlier_law (angle_recurs at.angle at.on_drum) };

    ghost within_span = { λ at. span_law (angle_recurs at.angle at.on_drum) };

    ghost monotone = { λ at. monotone_law (angle_recurs at.angle at.on_drum) };

    ghost periodic = { λ at. periodic_law (angle_recurs at.angle at.on_drum) };

    fn go(&self, clock: u64) -> u64 {
        clock + (u64::from(self.angle) + REVOLUTION - clock % REVOLUTION) % REVOLUTION
    }

    fn span(&self) -> u64 {
        49
    }
}
