//! What a picture shows of a walk, whichever walk it is. It is proved to be safe and to end; what a
//! picture shows is no contract.
//!
//! Code, from the bottom up. `walk` says which walk is shown and how long it takes, in `tenths` (a
//! number with one decimal place). `parts` says when the parts of a hop begin and end, and
//! `operations` what stands at a location. `tallies` counts visits by location, `edges` counts hops
//! from word to word, and `shares` adds up where all word times go. `rows` has the revolutions that
//! are shown, with each `drawn_hop`, and `extent` says how much of the walk that is; `braces` are
//! the rounds of which one is shown. A `scene` is all of it.
#![tactic(auto)]

mod braces;
mod drawn_hop;
mod edges;
mod extent;
mod operations;
mod parts;
mod rows;
mod scene;
mod shares;
mod tallies;
mod tenths;
mod walk;

pub use braces::{Brace, Braces, InColumn};
pub use drawn_hop::DrawnHop;
pub use edges::{Edge, EdgeCounts, Edges, MOST_EDGES, TakenEdge};
pub use extent::Extent;
pub use operations::Operations;
pub use parts::{Parts, next_found};
pub use rows::{Above, PAGE_ROWS, Row, Rows};
pub use scene::Scene;
pub use shares::Shares;
pub use tallies::{Tallies, Tally};
pub use tenths::Tenths;
pub use walk::{Kind, Walk};
