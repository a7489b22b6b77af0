//! The edges that close the loops of a flow graph: with a mark on each of them nothing closed is
//! free of marks, and none of these marks can be spared. And which loop stands inside another.
//!
//! Code, from the bottom up. `arrangement` is a depth-first search that puts a graph's nodes into
//! an order, and `arranging` runs it over all of them. `ranking` tells where each node stands
//! there. `targets` tells where the edges that don't go on lead to from a location; marks on these
//! edges of locations are enough. `one_way` tells whether each of them is needed because no edge of
//! locations both goes on and leads back, as one can from several nodes at a location. Where one
//! does, `sparing` tries each and leaves out those that aren't needed; `beside` looks whether marks
//! on the others are enough. `closing` puts these together. `links` is the graph of all links, and
//! `reached` what leads to what there without coming to a location; by these `nesting` tells
//! whether one loop stands inside another one.
//!
//! Definitions, in the order to read them: `Loops` says which edges close the loops, and `Nested`
//! which loop stands inside another. The others say how these edges are found: `Arranged` what an
//! order of nodes is in which they are those that lead back, `Arranging` what is so of the search
//! for it, `Spared` when marks are enough and which are left out, and `Flags`, `Ranks`, `Closing`,
//! `Links` and `Reached` what the code's lists mean by these.
//!
//! Proofs. `Befores` has what stands before what in an order, `Paths` what leads along it,
//! `Arrangements` the moves of the search, `Rankings`, `TargetLaws` and `Backs` the edges that lead
//! back, `OneWays` those that go on too, and `Closings` puts them together. `Sparings` is on edges
//! that are left out, and `Besides` on the graph without the others. `LinkRows` is on the graph of
//! all links, `Suches` on one of many with a property, `Reachings` on what is reached past a loop's
//! head, and `Nestings` on what that says of nodes.
#![tactic(auto)]

mod arrangement;
mod arranging;
mod beside;
mod closing;
mod links;
mod nesting;
mod one_way;
mod ranking;
mod reached;
mod sparing;
mod targets;

pub use closing::closing_edges;
pub use links::link_graph;
pub use nesting::is_nested;
