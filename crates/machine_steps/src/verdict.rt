use crate::left::Left;
use crate::why::Why;

/// What a replay found of its run.
#[derive(Clone, Copy, Debug, PartialEq, Eq)]
pub enum Verdict {
    /// The run keeps to the notes until it stops.
    Kept {
        /// The word times that it used, up to the stop.
        used: u64,
        /// The word times that a run of this deck can use at most: its bound, or, of a trace past
        /// the limit of the analysis, its ceiling.
        bound: u64,
        /// Why it stopped.
        why: Why,
    },
    /// The run leaves the notes.
    Left {
        /// How it leaves them.
        what: Left,
        /// The number, from 1, of the step with which it leaves them; 0 where the programmed switch
        /// isn't as declared.
        step: u64,
        /// The word times used before this step.
        used: u64,
    },
}
