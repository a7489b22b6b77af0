//! The timed machine, as it is defined: what a step does and when, what a run is, and when a run
//! keeps to the notes; with what an analysis and a monitor take from it. `machine_emulator` is a
//! machine that does so.
//!
//! Code, from the bottom up. A `card` is for the reader, and `why` the reason of a stop. `shifting`
//! has how many places a shift goes. `chain` is what takes time in a step, one after the other, and
//! `moments` says when, by the parts of that chain. `ways` has how a step of an instruction may
//! end, and `written` which drum words it writes. `passes` is what the pass of a mark does to each
//! count. `counts` is how often marks are passed (of as many as `Mark::MOST` says), and that a full
//! mark isn't passed again. `open` is which exits of subroutines are open, and with which way back.
//! `left` is how a run left the notes, and `verdict` what is found of a run.
//!
//! Definitions, in the order to read them: `Contents` (what a machine holds), `Effect` (what an
//! operation does to it, and which stop it meets once it acts), `Timing` (the moments of a step:
//! when its word is found, when it is ready, has its data and ends; and the units of its work),
//! `Step` (one step, with the stops before its operation acts: no operation, no operand, no card)
//! and `Run` (one step after the other). Then `Counts` (how often marks are passed), `Since` (what
//! these counts are, over all edges of a run), `Calls` (which exits calls open, and where these go
//! back) and `Keeps` (when a run keeps to the notes, and which way of leaving them comes first).
//! Then `Writes` and `Ways`, which the flow graph is made of, and `Ending`, by which way a step
//! ended. The others say what the code's types mean by these: `CountsIn`, `OpenIn`, `WaysLeft`.
//!
//! Proofs. These have laws that other crates use: `Alone`, which drum words stay (it stands on
//! `Going`: what an effect leaves, its step leaves); `Ends`, by which way a step ends, and when;
//! `Chained`, that the moments of a step are a chain's, so that they keep to the laws of a
//! clockwork; `SinceLaws`, of counts over all edges, and that an outer mark stands earlier.
#![tactic(auto)]

mod card;
pub mod chain;
mod counts;
mod left;
pub mod moments;
mod open;
mod passes;
mod shifting;
mod verdict;
mod ways;
mod why;
mod written;

pub use card::Card;
pub use counts::Counts;
pub use left::Left;
pub use open::Open;
pub use passes::{count_pass, is_inside};
pub use shifting::places;
pub use verdict::Verdict;
pub use ways::{Way, Ways};
pub use why::Why;
pub use written::writes;
