//! What is left of a plan, and what of that a visit of a loop may still take.

use crate::loops::Loops;
use crate::plan::Plan;
use crate::sharing::Sharing;
use crate::trail::Taken;
use std::alloc::AllocError;

/// What is left, by kind.
#[derive(Drop)]
pub struct Stock {
    pub left: Vec<i128>,
    /// What the visit of a kind's innermost loop may still take.
    share: Vec<i128>,
    /// What even shares go by; without it a visit may take all that is left.
    sharing: Option<Sharing>,
    /// How often a kind was used up.
    pub used_up: u32,
}

/// How far a kind may be taken.
#[derive(Clone, Copy, PartialEq, Eq, PartialOrd, Ord)]
pub enum Leave {
    /// The visit has it left.
    Visit,
    /// The plan has.
    Plan,
    /// Neither has.
    None,
}

impl Stock {
    /// All of a plan, in even shares or not.
    pub fn of(plan: &Plan, sharing: Option<Sharing>) -> Result<Stock, AllocError> {
        Ok(Stock {
            sharing,
            left: plan.times.clone()?,
            share: plan.times.clone()?,
            used_up: 0,
        })
    }

    /// What is left of a kind.
    fn left_of(&self, kind: usize) -> i128 {
        self.left.get(kind).copied().unwrap_or(0)
    }

    /// What the visit has left of a kind.
    fn share_of(&self, kind: usize) -> i128 {
        self.share.get(kind).copied().unwrap_or(0)
    }

    /// Whether some of a kind is left.
    pub fn has(&self, kind: usize) -> bool {
        self.left_of(kind) > 0
    }

    /// How far a kind may be taken.
    pub fn leave(&self, loops: &Loops, kind: usize) -> Leave {
        if !self.has(kind) {
            Leave::None
        } else if loops.home(kind).is_none() || self.share_of(kind) > 0 {
            Leave::Visit
        } else {
            Leave::Plan
        }
    }

    /// How many more rounds of a loop there are that each take this of a kind. One is left where
    /// the kind doesn't end the round.
    pub fn rounds(&self, loops: &Loops, number: usize, taken: Taken, is_last: bool) -> u128 {
        let mut left = self.left_of(taken.kind);
        if loops.home(taken.kind) == Some(number) {
            left = left.min(self.share_of(taken.kind));
        }
        let kept = if is_last { 0 } else { 1 };
        let left = left.max(0).unsigned_abs().saturating_sub(kept);
        left / taken.times.unsigned_abs().max(1)
    }

    /// How many more rounds of a loop even shares allow, of which one began behind a step and has
    /// taken this.
    pub fn even_rounds(&self, loops: &Loops, number: usize, since: u32, taken: &[Taken]) -> u128 {
        match (&self.sharing, loops.list.get(number)) {
            (Some(sharing), Some(one)) => sharing.rounds(loops, one, since, taken),
            _ => u128::MAX,
        }
    }

    /// Takes what so many rounds of a loop take.
    pub fn go_round(&mut self, loops: &Loops, number: usize, taken: &[Taken], rounds: i128) {
        for one in taken {
            let is_own = loops.home(one.kind) == Some(number);
            self.take(one.kind, one.times.saturating_mul(rounds), is_own);
        }
        if let Some(sharing) = &mut self.sharing
            && let Some(one) = loops.list.get(number)
        {
            sharing.go_round(loops, one, taken, rounds);
        }
    }

    /// Takes so many of a kind, those of its innermost loop's visit too if it is in that.
    pub fn take(&mut self, kind: usize, times: i128, is_of_visit: bool) {
        if let Some(left) = self.left.get_mut(kind)
            && *left > 0
        {
            *left = left.saturating_sub(times);
            if *left <= 0 {
                self.used_up = self.used_up.saturating_add(1);
            }
        }
        if let Some(sharing) = &mut self.sharing {
            sharing.take(kind, times);
        }
        if is_of_visit
            && let Some(share) = self.share.get_mut(kind)
            && *share > 0
        {
            *share = share.saturating_sub(times);
        }
    }

    /// A visit of a loop begins, at a place.
    pub fn begin(
        &mut self,
        loops: &Loops,
        number: usize,
        place: usize,
        step: u32,
    ) -> Result<(), AllocError> {
        if let Some(sharing) = &mut self.sharing {
            return sharing.begin(&mut self.share, loops, number, place, step);
        }
        if let Some(one) = loops.list.get(number) {
            for kind in &one.own {
                let left = self.left_of(*kind);
                if let Some(share) = self.share.get_mut(*kind) {
                    *share = left;
                }
            }
        }
        Ok(())
    }
}
