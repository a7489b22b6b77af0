//! A number of word times that no run which keeps to the notes ever exceeds, whatever the marks'
//! counts are, and a price for each time round a mark's loop; and a walk in rounds beside it, so
//! that the worst time is no more than the one, and no less than the other takes. It stands on the
//! flow graph and its rows, and not on the analysis.
//!
//! Code, from the bottom up. The rows of `ceiling_rows` say what the hops from each site take at
//! most, and where they lead; `longest` is the longest step of all. `ceiling_prices` finds prices
//! of the marks, their regions and levels of the sites, and owes only that it ends. `certificate`
//! looks whether they pay for every hop, where `step` tells what the marks charge for it, by each
//! `region`. `size` has what neither total nor price is above, by the passes `in_rounds` of the
//! marks, and `prices` such prices as are surely high enough. `finding` takes the lower ones, and
//! `answer` is what is handed out. `bracket` has a ceiling with its walk: the longest of those
//! whose pieces `ceiling_pieces` and `ceiling_plans` look for and `ceiling_rounds` checks, and the
//! longest of one hop.
//!
//! Definitions, in the order to read them: `Certificate` (what is owed for a node, an angle and
//! counts, so that it pays for every hop), `Affine` (the form of it that is looked for), `Rounds`
//! (what a time round a mark's loop takes), `Size` (what no ceiling is above), `Right` (when a
//! ceiling is right), `CeilingOf` (the same of what is handed out, and why there is none),
//! `BracketOf` (when a ceiling with a walk is right). The others say what the code's types mean by
//! these: `AtSite` (levels and regions at the numbers of sites), `Charge`, `Paying`, `InRounds` and
//! `Sized`.
//!
//! Proofs. `Bounded` goes along a walk with what is owed, and `Rounded` round a mark's loop, where
//! `RoundLeft` has what goes off what is left. `Left` shows that a hop is paid for whatever the
//! counts are, `Charged` what it is charged, and `Certified` that what was looked at is a
//! certificate, with `Numbered` and `Owing`. `LongestRows` shows that no step is longer than the
//! rows' longest. `ByOrder` has a certificate of each admitted deck, `RoundSums` and `Together`
//! what its passes come to, `Shut` that marks which may never be passed may cost nothing,
//! `Fallback` all of these; and `CeilingLaws` what is right of a ceiling.
#![tactic(auto)]

mod answer;
mod bracket;
mod certificate;
mod finding;
mod in_rounds;
mod longest;
mod prices;
mod region;
mod size;
mod step;

pub use answer::Ceiling;
pub use bracket::{Bracket, reached};
pub use finding::ceiling;
