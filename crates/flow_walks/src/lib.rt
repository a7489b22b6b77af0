//! Walks of the flow graph, as they are handed out: a list of visits, or pieces that are repeated,
//! where a walk is far too long to be listed.
//!
//! Code. A `visit` is a hop of a walk, with its time. A `piece` is what a walk in rounds is made
//! of: a hop, a row of earlier pieces, or rounds of one.
//!
//! Definitions, in the order to read them: `Worst` (what the worst time is), `Visited` (the hops of
//! a walk, without their units and waits, and when each takes as long as it can) and `Pieces` (what
//! numbered pieces spell out).
#![tactic(auto)]

mod piece;
mod visit;

pub use piece::{Piece, Placed, Rounds};
pub use visit::{Visit, no_passes};
