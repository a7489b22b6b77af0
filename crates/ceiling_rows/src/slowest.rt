//! Of data addresses of one part, one with which a hop ends no earlier than with the others.

ghost use Rattle.std.specs.Prelude.{◌≡◌, ℕ, ◌+◌, ◌%◌, ◌<◌, ◌≤◌, false, IfSome};
ghost use Rattle.machine_steps.specs.Effect as machine;
ghost use Rattle.machine_steps.specs.Ways.{to};
ghost use Rattle.machine_steps.specs.WaysLeft.{seen_way};

use crate::found::Found;
use base_notes::Pattern;
use base_words::{Location, Op, Shift};
use machine_rotation::Clockwork;
use machine_steps::Way;
use machine_steps::chain::to_ready;

/// How many angles the drum has.
pub const ANGLES: u16 = 50;

/// The angle of data addresses that a shift goes farthest with.
fn farthest_angle(shift: Shift) -> u64
    ensures on_drum { result < 50 }
    ensures far { (d other : ℕ) → d % 50 ≡ result
        → machine.places shift other ≤ machine.places shift d }
{
    match shift {
        Shift::Right | Shift::Left => 9,
        Shift::Round => 0,
    }
}

/// Whether a hop that ends by this way goes on beside the drum.
fn goes_beside(way: Way) -> bool
    ensures { result ≡ false → (next : ℕ) → seen_way way ≡ to next → next < 2000 }
{
    match way {
        Way::To(next) => next.number >= Location::DRUM,
        Way::Early | Way::Late => false,
    }
}

impl Found<'_> {
    ghost use Rattle.ceiling_rows.specs.Slowest.{is_ready, AreOfOnePart, IsSlowest, IsSlowestAngle};

    /// The angle of data addresses that the operation takes longest with: of a shift one that it
    /// goes farthest with, of another the one that has just gone by when the instruction is ready.
    fn slowest_angle(&self, op: Op) -> u64
        ensures on_drum { result < 50 }
        ensures slowest { IsSlowestAngle op (is_ready self.now op) result }
    {
        match op {
            Op::Shift(shift) => farthest_angle(shift),
            _ => (to_ready(self.times.entry(op), self.location).go(self.angle) + 49) % 50,
        }
    }

    /// One of a pattern's data addresses from `start` to `end`, which are of one part, with which a
    /// hop by this way ends no earlier than with the others. `None` where they are less than a
    /// revolution, or the hop goes on beside the drum, where each angle counts.
    pub fn slowest(&self, pattern: Pattern, way: Way, start: u16, end: u16) -> Option<u16>
        requires some { start ≤ pattern.d_to }
        requires within { end ≤ pattern.d_to + 1 }
        requires part { AreOfOnePart start end }
        ensures { IfSome result (λ d. IsSlowest self.now pattern (seen_way way) start end d) }
    {
        if end < start + ANGLES || goes_beside(way) {
            return None;
        }
        let angle = self.slowest_angle(Op::of(pattern.op)?) as u16;
        Some(start + (angle + ANGLES - start % ANGLES) % ANGLES)
    }
}
