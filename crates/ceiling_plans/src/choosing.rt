//! Which of the edges that the counts allow a walk takes.

use crate::opening::used_up;
use crate::stock::Leave;
use crate::walking::Walking;
use crate::ways_back::Asked;
use ceiling_rows::{SiteEdge, SiteRow};
use std::alloc::AllocError;

/// An edge that may be taken.
#[derive(Clone, Copy)]
pub struct Choice {
    /// Its place in the row.
    pub edge: usize,
    pub kind: usize,
}

/// How well an edge does. What is less does better.
#[derive(Clone, Copy, PartialEq, Eq, PartialOrd, Ord)]
struct Merit {
    leave: Leave,
    /// How far out the loop is in which a way leads back.
    back: usize,
    /// How far out the edge is.
    out: usize,
    /// How far out it leads, where walks rather go into loops.
    onto: usize,
    /// What is lost of what is owed.
    lost: u128,
    edge: usize,
}

/// What is behind all ways back by the plan.
const WITHOUT_PLAN: usize = 1_000_000;

impl Walking<'_> {
    /// The edges of a row that the counts allow.
    pub fn choices(&self, row: &SiteRow) -> Result<Vec<Choice>, AllocError> {
        let mut choices = Vec::new(self.alloc);
        for (edge, one) in row.edges.iter().enumerate() {
            if self.lets(one)
                && let Some(kind) = self.ground.places.kind_of(self.site, edge)
            {
                choices.push(Choice { edge, kind })?;
            }
        }
        Ok(choices)
    }

    /// The best of these.
    pub fn best_of(&mut self, choices: &[Choice]) -> Result<Option<Choice>, AllocError> {
        if choices.len() < 2 {
            return Ok(choices.first().copied());
        }
        let mut best: Option<Choice> = None;
        let mut known: Option<Merit> = None;
        for choice in choices {
            let merit = self.merit(*choice)?;
            if known.is_none_or(|known| merit < known) {
                best = Some(*choice);
                known = Some(merit);
            }
        }
        Ok(best)
    }

    /// How well an edge does.
    fn merit(&mut self, choice: Choice) -> Result<Merit, AllocError> {
        let leave = self.stock.leave(self.ground.loops, choice.kind);
        let Some(edge) = self.ground.edge(self.site, choice.edge) else {
            return Ok(Merit {
                leave: Leave::None,
                back: usize::MAX,
                out: usize::MAX,
                onto: usize::MAX,
                lost: u128::MAX,
                edge: choice.edge,
            });
        };
        let after = self.counts_behind(edge)?;
        let shut = used_up(self.ground.marks, &after);
        let behind = self.owed.at(self.ground.marks, edge.onto, &after);
        let owed = behind.saturating_add(u128::from(edge.time));
        let loops = self.ground.loops;
        let chain = loops.chain(choice.kind).len();
        let around = loops.around(self.ground.places.at(edge.onto)).len();
        Ok(Merit {
            leave,
            back: self.back_from(choice, shut, leave != Leave::None)?,
            out: usize::MAX.saturating_sub(chain),
            onto: if self.goes_in {
                usize::MAX.saturating_sub(around)
            } else {
                0
            },
            lost: u128::MAX.saturating_sub(owed),
            edge: choice.edge,
        })
    }

    /// How far out the loop is in which a way leads back: by what the plan has left, or else by
    /// what the counts allow.
    fn back_from(
        &mut self,
        choice: Choice,
        shut: u64,
        is_planned: bool,
    ) -> Result<usize, AllocError> {
        let asked = Asked {
            site: self.site,
            edge: choice.edge,
            shut,
            by_plan: None,
        };
        let left = &self.stock.left;
        if is_planned {
            let by_plan = Some(self.stock.used_up);
            let asked = Asked { by_plan, ..asked };
            let depth = self.back.depth(self.ground, asked, left, &mut self.budget)?;
            if depth > 0 {
                return Ok(WITHOUT_PLAN.saturating_sub(depth));
            }
        }
        let depth = self.back.depth(self.ground, asked, left, &mut self.budget)?;
        Ok(WITHOUT_PLAN.saturating_mul(2).saturating_sub(depth))
    }

    /// The counts behind an edge.
    fn counts_behind(&self, edge: &SiteEdge) -> Result<Vec<u32>, AllocError> {
        let mut after = self.counts.clone()?;
        let Some(mark) = edge.mark else {
            return Ok(after);
        };
        let inner = self.ground.marks.at(mark).map_or(0, |one| one.inner);
        for (count, standing) in after.iter_mut().zip(&self.ground.marks.list) {
            if standing.bit & inner != 0 {
                *count = 0;
            }
        }
        if let Some(count) = after.get_mut(usize::from(mark)) {
            *count = count.saturating_add(1);
        }
        Ok(after)
    }
}
