//! All that keeps a deck from having a bound under its notes, at once, where an analysis tells the
//! first of it alone; and the loose ends of both: marks' edges, lists and calls that are unused,
//! words of the deck that nothing comes to, and marks that don't say inside which other one they
//! stand.
//!
//! Code, from the bottom up. What is found without looking at loops comes from `check_findings`.
//! `nesting` is what is known of which loops stand inside which others; `nested` tells inside which
//! of them that of an edge or of a mark stands, and `several` whether different marks stand on ways
//! back of one of these loops. `sharing` finds which edges share a mark. `loops` finds the loops
//! that lack a mark, and puts them in order, with the mark inside which one on each is to stand;
//! `unsaid` finds the marks that don't say inside which other they stand. `findings` is what is
//! found, which `findings/gathering` gathers; it has its lines and the notes that are lacking
//! written by `check_findings` too.
//!
//! Definitions, in the order to read them: `Findings` is all that is found, and `First` what is
//! found first of a deck that is refused. `Insides` is in which order loops are told, which of
//! their edges share a mark, and inside which mark each is to stand; `Those` are those of a list
//! that have a property. `FindingsOf` and `KnownInside` say what the code's types mean by these.
//!
//! Proofs. `Unsaids` is on pairs of marks. Of the loops `Numbered` counts and finds the last one
//! round another, `Ones` finds one of many, `Ways` where those round it go back to, `Heads` where
//! edges share a mark, `Marked` the edges of a mark, `Rearranged` takes edges in another order, and
//! `Tellings` tells them one after the other.
#![tactic(auto)]

mod findings;
mod loops;
mod nested;
mod nesting;
mod several;
mod sharing;
mod unsaid;

pub use findings::Findings;
