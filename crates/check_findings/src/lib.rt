//! What may be found of a deck and its notes, with its lines and the notes that are lacking; and
//! what is found without looking at loops: of each executed location by itself, of the words that
//! its instructions alter, of edges and calls, and of words that nothing comes to.
//!
//! Code. A `finding` is one of these things; `within` is inside which other mark a mark is to
//! stand. `operations` are those of a location that are outside the profile. `altered` are the
//! words that its instructions alter, and `unchanged_parts` is how much of its instruction such a
//! word keeps. `edges` tells whether an edge is there, and has marks by their edges; `calls` are
//! those that aren't used. `naming` is which words an operation names as data, a `stretch` those
//! that instructions of a pattern name, and `named` those that all executed ones do; `idle` finds
//! the words that are neither these nor executed. Of the lines `listing` writes one for each
//! finding; `lengths` tells whether the notes are long once the marks that are lacking stand in
//! them; `lacking` are the words that lack a list; `marking` and `pasting` write the notes that are
//! lacking behind the lines, the first its marks.
//!
//! Definitions, in the order to read them: `Finding` is what may be found, `UnchangedParts` what a
//! writer keeps of a word that it alters, and `Edges` which edges the flow graph has. `FoundAt` is
//! what is found of one location, edge, list or call; `Idle`, which words nothing comes to;
//! `Shared`, which findings ask for a mark and which share one. `FindingsText` is the lines, and
//! `Lacking` are the notes that are lacking. `FindingOf`, `NamedOf` and `LackingOf` say what the
//! code's types mean by these.
//!
//! Proofs. `Steps` is on edges that are there, `Among` on locations among the executed ones,
//! `Outsides` on operations, `Fixeds` on words that are altered, `Namings` and `NamedFlags` on
//! words that are named. `Adding` and `Whole` put lists of findings together, and `Nothing` is on
//! lists in which nothing is; `check_deck` uses these too. `Words` and `Lacks` are on words that
//! lack a list.
#![tactic(auto)]

mod altered;
mod calls;
mod edges;
mod finding;
mod idle;
mod lacking;
mod lengths;
mod listing;
mod marking;
mod named;
mod naming;
mod operations;
mod pasting;
mod stretch;
mod unchanged_parts;
mod within;

pub use altered::altered_at;
pub use calls::unused_calls;
pub use edges::{has_edge, is_executed, mark_alone, marked_edges, marks_of};
pub use finding::Finding;
pub use idle::idle_words;
pub use lacking::Lacking;
pub use lengths::are_long;
pub use operations::operations_outside;
pub use pasting::put_all;
pub use unchanged_parts::UnchangedParts;
pub use within::Within;
