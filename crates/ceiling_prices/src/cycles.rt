//! Cycles from head to head: the longest way from each head of a mark leads to a head.

use crate::by_site::BySite;
use crate::ways::Ways;
use std::alloc::{AllocError, Global};

/// The cycles of the longest ways from heads.
#[derive(Drop)]
pub struct Cycles {
    /// By site, the number of the head from which it was come to first.
    seen: BySite,
}

/// What some ways take, and how many they are.
#[derive(Clone, Copy)]
struct Lap {
    time: i128,
    ways: u128,
}

impl Cycles {
    /// None was gone along yet.
    pub fn none(alloc: Global, count: usize) -> Result<Cycles, AllocError> {
        let seen = BySite::none(alloc, count)?;
        Ok(Cycles { seen })
    }

    /// The most that a way takes on the average in one of the cycles, rounded up.
    pub fn mean(&mut self, heads: &[usize], ways: &Ways, ahead: &BySite) -> i128 {
        for head in heads {
            self.seen.set(*head, None);
        }
        let mut most = 0;
        for (number, head) in heads.iter().enumerate() {
            if let Some(on) = self.closed(number as i128, *head, heads.len(), ways) {
                most = once_around(on, heads.len(), ways, ahead).mean().max(most);
            }
        }
        most
    }

    /// A head at which ways from this one close a cycle that wasn't gone along yet.
    fn closed(&mut self, number: i128, head: usize, heads: usize, ways: &Ways) -> Option<usize> {
        let mut at = head;
        for _ in 0..=heads {
            if let Some(before) = self.seen.at(at) {
                return if before == number { Some(at) } else { None };
            }
            self.seen.set(at, Some(number));
            at = ways.at(at)?.head;
        }
        None
    }
}

/// Once around a cycle.
fn once_around(on: usize, heads: usize, ways: &Ways, ahead: &BySite) -> Lap {
    let mut lap = Lap { time: 0, ways: 0 };
    let mut at = on;
    for _ in 0..heads {
        let Some(round) = ways.at(at) else {
            break;
        };
        let own = round.time.saturating_sub(ahead.at(round.head).unwrap_or(0));
        lap.time = lap.time.saturating_add(own);
        lap.ways = lap.ways.saturating_add(1);
        at = round.head;
        if at == on {
            break;
        }
    }
    lap
}

impl Lap {
    /// What a way takes on the average, rounded up; 0 where that is less.
    fn mean(self) -> i128 {
        if self.ways == 0 {
            return 0;
        }
        let mean = self.time.max(0).unsigned_abs().div_ceil(self.ways);
        i128::try_from(mean).unwrap_or(i128::MAX)
    }
}
