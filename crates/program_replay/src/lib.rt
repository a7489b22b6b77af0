//! The run that inputs fix, followed step by step up to the verdict on it, as a replay, with a line
//! for each step as a trace, or as a picture.
//!
//! Code, from the bottom up. `following` is a run that is followed step by step. `met` is which
//! patterns of a list were met, and `coverage` how much of its notes a run has come to, with
//! `coverage_lines`, its lines. `replaying` begins a run, of a replay or of a trace, and has
//! `replay`. `tracing` puts the steps of a trace, what they come to of the notes, and its verdict
//! on a sheet. `picturing` follows a run as `replay` does, and draws it.
//!
//! Definitions, in the order to read them: `Replay` is the verdict on a run, and its trace, with
//! `Given`, what inputs give to it, `Coverage` how much of its notes it comes to, and `RunReply`
//! what is said of it. The others say what the code means by these: `Following` of a run on its
//! way, `CoverageOf` of a coverage, and `Begun` of a run before its first step.
//!
//! Proofs. `Beginning`, `TraceBegun`, `Followed` and `Leading` have how a run begins and is
//! followed, and `Traced` the lines of its steps. `Flags`, `Seen` and `LineTexts` have what a
//! coverage has seen, and its lines. `Drawn` has a replay before its first step, and its verdict
//! where it is drawn. `NoLine` says that what is said of a trace is no fault's line, for
//! `program_run`.
#![tactic(auto)]

mod coverage;
mod coverage_lines;
mod following;
mod met;
mod picturing;
mod replaying;
mod tracing;

pub use picturing::{Pictured, picture_run, tell_picture};
pub use replaying::{Begun, BegunTrace, begin_trace, replay};
pub use tracing::tell_trace;
