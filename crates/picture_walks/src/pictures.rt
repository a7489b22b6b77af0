//! The whole picture.

ghost use Rattle.std.specs.Prelude.{IfOk, string_bytes};
ghost use Rattle.bound_scan.specs.AnalysisOf.{bound_of};
ghost use Rattle.ceiling_rounds.specs.InRounds.{total_of};
ghost use Rattle.picture_scene.specs.declared.walk.Kind.TheVariants as kinds;
ghost use Rattle.picture_drawing.specs.PictureText.{IsPictureOf};

use crate::of_analysis::of_analysis;
use crate::of_rounds::of_rounds;
use crate::of_run::of_run;
use crate::run::Run;
use base_notes::{Notes, Times};
use bound_scan::Analysis;
use ceiling_rounds::InRounds;
use machine_steps::Verdict;
use picture_drawing::draw;
use picture_scene::Shares;
use read_decks::Deck;
use std::alloc::{AllocError, Global};

/// The picture of an analysis, an SVG document: the drum with the words of the deck and the edges
/// of the worst walk between them, revolutions of the walk, and where all its word times go.
/// It means something where the analysis is of this deck and timing table, and these are the shares
/// of its walk. It begins with the bound, as its title and in large letters, and ends with the
/// shares, in word times; no clause says what stands between. That it is well-formed, and has
/// 1,000,000 bytes at most, is tested.
///
/// # Errors
///
/// [`AllocError`] where there is no memory.
pub fn picture(
    alloc: Global,
    analysis: &Analysis,
    shares: Shares,
    deck: &Deck,
    times: &Times,
) -> Result<String, AllocError>
    ensures { IfOk result (λ picture.
        IsPictureOf kinds.Worst (bound_of analysis.now) shares (string_bytes picture)) }
{
    draw(alloc, &of_analysis(alloc, analysis, shares, deck, times)?)
}

/// The picture of a walk in rounds, beside a ceiling (in word times): the same, but that each piece
/// of the walk is shown once, with its rounds beside it. It means something where the walk and the
/// ceiling are of this deck with this timing table and these notes, and these are the shares of
/// the walk. It begins with what the walk takes and the ceiling, and ends with the shares.
///
/// # Errors
///
/// [`AllocError`] where there is no memory.
pub fn picture_in_rounds(
    alloc: Global,
    walk: &InRounds,
    ceiling: u128,
    shares: Shares,
    deck: &Deck,
    times: &Times,
    notes: &Notes,
) -> Result<String, AllocError>
    ensures { IfOk result (λ picture.
        IsPictureOf (kinds.InRounds ceiling) (total_of walk.now) shares (string_bytes picture)) }
{
    let scene = of_rounds(alloc, walk, ceiling, shares, deck, times, notes)?;
    draw(alloc, &scene)
}

/// The picture of a run with this verdict, of which all steps were taken in: the same as that of an
/// analysis. It means something where the run is of this deck with this timing table, and was held
/// to these notes. It begins with what the run takes, and ends with its shares.
///
/// # Errors
///
/// [`AllocError`] where there is no memory.
pub fn picture_of_run(
    alloc: Global,
    run: Run,
    verdict: &Verdict,
    deck: &Deck,
    times: &Times,
    notes: &Notes,
) -> Result<String, AllocError>
    ensures { IfOk result (λ picture.
        IsPictureOf (kinds.Run verdict.now) run.time run.shares (string_bytes picture)) }
{
    draw(alloc, &of_run(alloc, run, verdict, deck, times, notes)?)
}
