//! Even shares: each visit of a loop may take what is left over the visits that are left, rounded
//! up.

use crate::loops::{Loop, Loops};
use crate::places::Places;
use crate::plan::Plan;
use crate::trail::Taken;
use std::alloc::{AllocError, Global};

/// The visit of a loop as it began.
#[derive(Drop)]
struct Begun {
    step: u32,
    number: usize,
    /// How many visits were left, this one included.
    visits: i128,
    /// What was left for them.
    left: Vec<Taken>,
}

/// How many visits are remembered at most, as they began.
const MOST: usize = 256;

/// What the visits of loops have left.
#[derive(Drop)]
pub struct Sharing {
    alloc: Global,
    /// By kind, how often the plan takes it.
    times: Vec<i128>,
    /// By loop, how often the plan visits it.
    visits: Vec<i128>,
    /// By kind, what the visits that are left of its innermost loop may take, as long as one of the
    /// loop around lasts.
    left: Vec<i128>,
    /// By loop, how many visits of it are left in that one.
    turns: Vec<i128>,
    begun: Vec<Begun>,
}

/// A number over another, rounded up; 0 where it is less.
fn over(number: i128, by: i128) -> i128 {
    let by = by.max(1).unsigned_abs().max(1);
    let part = number.max(0).unsigned_abs().div_ceil(by);
    i128::try_from(part).unwrap_or(i128::MAX)
}

/// The number at a place.
fn at(numbers: &[i128], place: usize) -> i128 {
    numbers.get(place).copied().unwrap_or(0)
}

/// Adds to the number at a place.
fn add(numbers: &mut [i128], place: usize, more: i128) {
    if let Some(number) = numbers.get_mut(place) {
        *number = number.saturating_add(more);
    }
}

/// Sets the number at a place.
fn set(numbers: &mut [i128], place: usize, to: i128) {
    if let Some(number) = numbers.get_mut(place) {
        *number = to;
    }
}

/// How often a kind is among what was taken.
fn times_of(taken: &[Taken], kind: usize) -> i128 {
    for one in taken {
        if one.kind == kind {
            return one.times;
        }
    }
    0
}

impl Sharing {
    /// That of a plan from a place.
    pub fn of(
        alloc: Global,
        plan: &Plan,
        loops: &Loops,
        places: &Places,
        start: usize,
    ) -> Result<Sharing, AllocError> {
        let mut sharing = Sharing {
            alloc,
            times: plan.times.clone()?,
            visits: vec![in alloc; 0; loops.list.len()]?,
            left: plan.times.clone()?,
            turns: Vec::new(alloc),
            begun: Vec::new(alloc),
        };
        for number in loops.around(start) {
            add(&mut sharing.visits, *number, 1);
        }
        for (number, kind) in places.kinds.iter().enumerate() {
            sharing.visit(loops, number, kind.onto);
        }
        sharing.turns = sharing.visits.clone()?;
        Ok(sharing)
    }

    /// Counts the visits that begin by a kind.
    fn visit(&mut self, loops: &Loops, kind: usize, onto: usize) {
        let times = at(&self.times, kind);
        let chain = loops.chain(kind);
        for number in loops.around(onto) {
            if !chain.contains(number) {
                add(&mut self.visits, *number, times);
            }
        }
    }

    /// A visit of a loop begins, at a place: by kind, it gets its share.
    pub fn begin(
        &mut self,
        share: &mut [i128],
        loops: &Loops,
        number: usize,
        place: usize,
        step: u32,
    ) -> Result<(), AllocError> {
        let Some(one) = loops.list.get(number) else {
            return Ok(());
        };
        let visits = at(&self.turns, number).max(1);
        let mut left = Vec::new(self.alloc);
        for kind in &one.own {
            let times = at(&self.left, *kind);
            left.push(Taken { kind: *kind, times })?;
            set(share, *kind, over(times, visits));
        }
        if self.begun.len() >= MOST {
            self.begun.clear();
        }
        self.begun.push(Begun {
            step,
            number,
            visits,
            left,
        })?;
        add(&mut self.turns, number, -1);
        for inner in &one.inner {
            let is_here = loops.around(place).contains(inner);
            self.begin_inner(share, loops, *inner, is_here);
        }
        Ok(())
    }

    /// What the visits of a loop further in get that one around it has.
    fn begin_inner(&mut self, share: &[i128], loops: &Loops, number: usize, is_here: bool) {
        let Some(one) = loops.list.get(number) else {
            return;
        };
        let mut turns = i128::from(is_here);
        for kind in &one.enter {
            turns = turns.saturating_add(at(share, *kind));
        }
        set(&mut self.turns, number, turns);
        let visits = at(&self.visits, number);
        for kind in &one.own {
            let all = at(&self.times, *kind).saturating_mul(turns);
            set(&mut self.left, *kind, over(all, visits));
        }
    }

    /// Takes so many of a kind.
    pub fn take(&mut self, kind: usize, times: i128) {
        add(&mut self.left, kind, times.saturating_neg());
    }

    /// Takes so many rounds of a loop: so many visits of those further in.
    pub fn go_round(&mut self, loops: &Loops, one: &Loop, taken: &[Taken], rounds: i128) {
        for number in &one.inner {
            let entries = entries_of(loops, *number, taken);
            let all = entries.saturating_mul(rounds);
            add(&mut self.turns, *number, all.saturating_neg());
        }
    }

    /// How many more rounds of a loop there are at most, so that each visit further in gets the
    /// same share as in the one that began behind a step.
    pub fn rounds(&self, loops: &Loops, one: &Loop, since: u32, taken: &[Taken]) -> u128 {
        let mut least = u128::MAX;
        for begun in self.begun.iter().rev() {
            if begun.step < since {
                break;
            }
            if one.inner.contains(&begun.number) {
                let entries = entries_of(loops, begun.number, taken);
                least = least.min(begun.rounds(entries, taken));
            }
        }
        least
    }
}

/// How often a loop is come into by what was taken.
fn entries_of(loops: &Loops, number: usize, taken: &[Taken]) -> i128 {
    let Some(one) = loops.list.get(number) else {
        return 0;
    };
    let mut entries: i128 = 0;
    for kind in &one.enter {
        entries = entries.saturating_add(times_of(taken, *kind));
    }
    entries
}

impl Begun {
    /// How many more rounds there are at most, each with so many visits, so that each gets the
    /// same.
    fn rounds(&self, entries: i128, taken: &[Taken]) -> u128 {
        let mut least = u128::MAX;
        for one in &self.left {
            let share = over(one.times, self.visits);
            let used = times_of(taken, one.kind);
            let more = share.saturating_mul(entries).saturating_sub(used);
            if more > 0 {
                let room = share.saturating_mul(self.visits).saturating_sub(one.times);
                least = least.min(quotient(room, more));
            }
            let below = share.saturating_sub(1);
            let fewer = used.saturating_sub(below.saturating_mul(entries));
            if fewer > 0 {
                let lower = below.saturating_mul(self.visits).saturating_add(1);
                least = least.min(quotient(one.times.saturating_sub(lower), fewer));
            }
        }
        least
    }
}

/// A number over another, rounded down; 0 where it is less.
fn quotient(number: i128, by: i128) -> u128 {
    number.max(0).unsigned_abs() / by.max(1).unsigned_abs().max(1)
}
