//! A hop that is drawn.

use crate::parts::Parts;
use flow_walks::Visit;

/// A hop that is drawn, with its moments. A moment counts word times from the beginning of the
/// first revolution on.
#[derive(Clone, Copy)]
pub struct DrawnHop {
    /// The hop. When it was taken is told by what stands below alone.
    pub visit: Visit,
    /// Its parts, whose clocks count from the beginning of a revolution on.
    pub parts: Parts,
    /// Which revolution that is, from 0.
    pub from: u128,
}

impl DrawnHop {
    /// The moment of one of its clocks.
    pub fn moment(&self, clock: u64) -> u128 {
        let before = self.from.saturating_mul(50);
        before.saturating_add(u128::from(clock))
    }

    /// The revolution in which one of its clocks is, from 0.
    pub fn revolution(&self, clock: u64) -> u128 {
        self.moment(clock) / 50
    }

    /// The revolution in which it begins.
    pub fn first_revolution(&self) -> u128 {
        self.revolution(self.parts.begun)
    }
}
