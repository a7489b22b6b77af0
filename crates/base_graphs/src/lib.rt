//! Values without repeats, and an order of a graph's nodes in which every edge goes on, or a cycle
//! of it. It knows nothing of marks and hops.
//!
//! Code. `distinct` holds values without repeats, each with its index: nodes, or what stands for
//! them. `graph` is a graph of numbered nodes. `search` is its depth-first search, one move a
//! method, which finds the cycle where there is one; `progress` is how far a node is. With
//! `sorting` it is run from every node, and `sorted` is what comes of it.
//!
//! Definitions, in the order to read them: `Graph` (orders and cycles); `Rows` and `Search` say
//! what the code's types mean.
//!
//! Proofs. `Lists` and `Members` have lemmas on lists that other crates use too; `Positions` says
//! where a value stands in a list that gets longer; `Searches` follows the search.
#![tactic(auto)]

mod distinct;
mod graph;
mod progress;
mod search;
mod sorted;
mod sorting;

pub use distinct::Distinct;
pub use graph::Graph;
pub use sorted::Sorted;
pub use sorting::sort;
