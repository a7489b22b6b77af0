//! The picture of an analysis, of a ceiling, or of a run: the worst walk of the one, the walk in
//! rounds beside the other, or the steps of the last, drawn as an SVG document of bounded size. It
//! is proved to be safe and to end, whatever is handed in, to begin with what the walk takes, in
//! words, and to end with where these word times go, in numbers; how it looks is no contract.
//! docs/PICTURE.md says how it is read.
//!
//! Code. `pictures` has `picture`, `picture_in_rounds` and `picture_of_run`. Each finds what is
//! shown, the scene of `picture_scene`, and has `picture_drawing` draw it. `of_analysis` finds it
//! of an analysis, `of_rounds` of a walk in rounds, and `of_run` of a `run`, which takes in one
//! step after the other. `hops` finds the revolutions that are shown in a list of hops. Of a walk
//! in rounds `pieces` tells what each piece takes and how often it comes, `start` from which of
//! them on it is drawn, and `going` goes through them, hop by hop.
//!
//! Proofs. `Pictured` says what a picture says by what its walk was found in.
#![tactic(auto)]

mod going;
mod hops;
mod of_analysis;
mod of_rounds;
mod of_run;
mod pictures;
mod pieces;
mod run;
mod start;

pub use pictures::{picture, picture_in_rounds, picture_of_run};
pub use run::Run;
