//! The flow graph of a deck under its notes, drawn in the language DOT: a box for each executed
//! word, in the order of discovery, and behind it an arrow for each location where its instructions
//! go on, with the mark that stands on that edge, and a dotted arrow to each executed word that
//! they write. (From the exit of a call an arrow leads to those ways back alone that may be open
//! there.) It is drawn of any deck, whatever is wrong with it: what has to be mended is grey, and
//! what needs a mark is red.
//!
//! Code, from the bottom up. `operations` are those that are allowed at a location. `stops` tells
//! whether some instruction of it may stop the run, `fitness` whether it is loaded or listed with
//! operations in the profile alone, `onward` are the locations where its instructions go on, and
//! `written` the executed words that they write. A `node` is what is drawn as a box, `closing` has
//! the edges that close loops, and `graph` is what is drawn of a deck; its `outline` has words that
//! go straight on from one to the next as one box. `drawing` puts the graph on a sheet: `boxes` the
//! line of a box, and `arrows` the lines of its arrows.
//!
//! Definitions, in the order to read them: `Graph` is what is drawn of each executed location,
//! `GraphText` its lines, `Outline` which words are one box, and `GraphOf` how all this is held.
//!
//! Proofs. There is a file for each part of a node (`Words` for what is written, with `Among`;
//! `PatternOperations`; `Stopping`; `Taken` for where it goes on), `Nodes` for all of them, `Edges`
//! for those that close loops, and `Outlines` for words that are put into boxes.
#![tactic(auto)]

mod arrows;
mod boxes;
mod closing;
mod drawing;
mod fitness;
mod graph;
mod node;
mod onward;
mod operations;
mod outline;
mod stops;
mod written;

pub use drawing::put_graph;
pub use graph::Graph;
