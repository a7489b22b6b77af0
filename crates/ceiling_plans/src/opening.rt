//! At which mark a loop is opened: one that stands inside of no other on it; rather none that
//! another one's pass sets back on a cycle that it is passed on alone; one that most cycles of the
//! plan pass; and the one that is passed least.

use crate::loops::bits_of;
use crate::marks::{Marks, Standing, bit_of};
use crate::places::Places;
use crate::plan::Plan;
use std::alloc::{AllocError, Global};

/// What the mark of a loop is chosen by.
#[derive(Clone, Copy)]
pub struct Opener<'a> {
    pub marks: &'a Marks,
    pub plan: &'a Plan,
}

/// How well a mark does. What is less does better.
#[derive(Clone, Copy, PartialEq, Eq, PartialOrd, Ord)]
struct Merit {
    /// Whether it is set back on the way by a mark beside one of its cycles.
    is_late: bool,
    /// How many cycles of the plan don't pass it.
    without: usize,
    passes: i128,
    most: u32,
    mark: u8,
}

impl Opener<'_> {
    /// The mark at which the loop of these kinds is opened; none, where it has none.
    pub fn mark_of(
        self,
        alloc: Global,
        places: &Places,
        kinds: &[usize],
    ) -> Result<Option<u8>, AllocError> {
        let on = bits_of(places, kinds);
        let cycles = self.cycles_in(alloc, places, kinds)?;
        let mut best: Option<Merit> = None;
        for (mark, standing) in (0..u8::MAX).zip(&self.marks.list) {
            if standing.bit & on != 0 && standing.outer & on == 0 {
                let merit = self.merit(mark, *standing, on, &cycles);
                best = Some(best.map_or(merit, |known| known.min(merit)));
            }
        }
        Ok(best.map(|merit| merit.mark))
    }

    /// The marks of each cycle of the plan that stays within these kinds.
    fn cycles_in(
        self,
        alloc: Global,
        places: &Places,
        kinds: &[usize],
    ) -> Result<Vec<u64>, AllocError> {
        let mut is_in = vec![in alloc; false; places.kinds.len()]?;
        for kind in kinds {
            if let Some(own) = is_in.get_mut(*kind) {
                *own = true;
            }
        }
        let mut cycles = Vec::new(alloc);
        for cycle in &self.plan.cycles {
            if are_all(&is_in, cycle) {
                cycles.push(bits_of(places, cycle))?;
            }
        }
        Ok(cycles)
    }

    /// How well a mark does on a loop with these marks and cycles.
    fn merit(self, mark: u8, standing: Standing, on: u64, cycles: &[u64]) -> Merit {
        let mut is_late = false;
        let mut without: usize = 0;
        for cycle in cycles {
            if cycle & standing.bit == 0 {
                without = without.saturating_add(1);
            } else {
                is_late |= self.marks.outer_of(*cycle) & on & !cycle != 0;
            }
        }
        let passes = self.plan.passes.get(usize::from(mark)).copied();
        Merit {
            is_late,
            without,
            passes: passes.unwrap_or(0),
            most: standing.most,
            mark,
        }
    }
}

/// Whether all of these are in.
fn are_all(is_in: &[bool], kinds: &[usize]) -> bool {
    for kind in kinds {
        if !is_in.get(*kind).copied().unwrap_or(false) {
            return false;
        }
    }
    true
}

/// The marks that are used up by these counts, a bit of each.
pub fn used_up(marks: &Marks, counts: &[u32]) -> u64 {
    let mut some = 0;
    for ((mark, standing), count) in (0..u8::MAX).zip(&marks.list).zip(counts) {
        if *count >= standing.most {
            some |= bit_of(mark);
        }
    }
    some
}
