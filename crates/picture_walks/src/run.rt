//! A run, taken in step by step.

use base_notes::Times;
use base_words::Instruction;
use flow_walks::Visit;
use machine_emulator::Step;
use machine_steps::{Way, Why};
use picture_scene::{EdgeCounts, Parts, Shares, Tallies};
use std::alloc::{AllocError, Global};

/// How many hops are kept at most. All others are counted, and no more.
const MOST_KEPT: usize = 1 << 20;

/// The latest moment at which a hop may begin, in word times used.
const LATEST_BEGUN: u64 = (1 << 50) - 1;

/// A run, as far as its steps were taken in.
#[derive(Drop)]
pub struct Run {
    /// The drum's angle when it begins.
    pub angle: u64,
    /// Its first hops.
    pub kept: Vec<Visit>,
    pub tallies: Tallies,
    pub edges: EdgeCounts,
    pub shares: Shares,
    /// The word times that it takes.
    pub time: u128,
}

/// How a step that stops ends.
fn way_of(why: Why) -> Way {
    match why {
        Why::Operand | Why::Card => Way::Early,
        _ => Way::Late,
    }
}

/// A step as a hop, with `begun` word times used before it.
fn hop_of(step: &Step, begun: u64) -> Visit {
    let (place, word, way, used) = match *step {
        Step::Went {
            origin,
            word,
            next,
            used,
            ..
        } => (origin, word, Way::To(next), used),
        Step::Stopped {
            origin,
            word,
            why,
            used,
        } => (origin, word, way_of(why), used),
    };
    Visit {
        place,
        instruction: Instruction::of(word),
        way,
        took: u32::try_from(used.saturating_sub(begun)).unwrap_or(u32::MAX),
        begun: begun.min(LATEST_BEGUN),
    }
}

impl Run {
    /// A run before its first step, on a drum at this angle.
    ///
    /// # Errors
    ///
    /// [`AllocError`] where there is no memory.
    pub fn new(alloc: Global, angle: u8) -> Result<Run, AllocError> {
        Ok(Run {
            angle: u64::from(angle),
            kept: Vec::new(alloc),
            tallies: Tallies::new(alloc)?,
            edges: EdgeCounts::new(alloc),
            shares: Shares::NONE,
            time: 0,
        })
    }

    /// Takes in the next step, with `begun` word times used before it.
    ///
    /// # Errors
    ///
    /// [`AllocError`] where there is no memory.
    pub fn take(&mut self, step: &Step, begun: u64, times: &Times) -> Result<(), AllocError> {
        let visit = hop_of(step, begun);
        self.tallies.count(&visit, 1);
        self.edges.count(&visit)?;
        self.shares = self.shares.with(Parts::of(&visit, self.angle, times), 1);
        self.time = self.time.saturating_add(u128::from(visit.took));
        if self.kept.len() < MOST_KEPT {
            self.kept.push(visit)?;
        }
        Ok(())
    }
}
