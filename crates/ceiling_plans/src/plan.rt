//! A plan: how often each kind of edge is taken.

use crate::places::Places;
use ceiling_optimum::Share;
use std::alloc::{AllocError, Global};

/// How often each kind is taken, and the cycles that this is made of.
#[derive(Drop)]
pub struct Plan {
    /// By kind, how often.
    pub times: Vec<i128>,
    /// The kinds of each cycle.
    pub cycles: Vec<Vec<usize>>,
    /// By mark, how often it is passed.
    pub passes: Vec<i128>,
}

impl Plan {
    /// That of shares. A part of a time is rounded down, or up.
    pub fn of(
        alloc: Global,
        places: &Places,
        shares: &[Share],
        is_up: bool,
    ) -> Result<Plan, AllocError> {
        let mut plan = Plan {
            times: vec![in alloc; 0; places.kinds.len()]?,
            cycles: Vec::new(alloc),
            passes: vec![in alloc; 0; 64]?,
        };
        for share in shares {
            let more = i128::from(is_up && share.has_part);
            let kinds = kinds_of(alloc, places, share)?;
            plan.add(places, &kinds, share.times.saturating_add(more));
            if !share.is_path {
                plan.cycles.push(kinds)?;
            }
        }
        Ok(plan)
    }

    /// Takes kinds so many times.
    fn add(&mut self, places: &Places, kinds: &[usize], times: i128) {
        for number in kinds {
            if let Some(own) = self.times.get_mut(*number) {
                *own = own.saturating_add(times);
            }
            if let Some(kind) = places.kind(*number)
                && let Some(mark) = kind.mark
                && let Some(passes) = self.passes.get_mut(usize::from(mark))
            {
                *passes = passes.saturating_add(times);
            }
        }
    }

    /// How often a kind is taken.
    pub fn times_of(&self, kind: usize) -> i128 {
        self.times.get(kind).copied().unwrap_or(0)
    }
}

/// The kinds of a way's edges.
fn kinds_of(alloc: Global, places: &Places, share: &Share) -> Result<Vec<usize>, AllocError> {
    let mut kinds = Vec::new(alloc);
    for step in &share.steps {
        if let Some(kind) = places.kind_of(step.site, step.edge) {
            kinds.push(kind)?;
        }
    }
    Ok(kinds)
}
