//! What is drawn of an analysis: its worst walk.

ghost use Rattle.std.specs.Prelude.{◌≡◌, IfOk};
ghost use Rattle.bound_scan.specs.AnalysisOf.{bound_of};
ghost use Rattle.picture_scene.specs.declared.walk.Kind.TheVariants.{Worst};

use crate::hops::Hops;
use base_notes::Times;
use bound_scan::Analysis;
use picture_scene::{Braces, Edges, Kind, Scene, Shares, Tallies, Walk};
use read_decks::Deck;
use std::alloc::{AllocError, Global};

/// What is drawn of an analysis of a deck and a timing table, with the shares of its walk.
pub fn of_analysis(
    alloc: Global,
    analysis: &Analysis,
    shares: Shares,
    deck: &Deck,
    times: &Times,
) -> Result<Scene, AllocError>
    ensures kind { IfOk result (λ scene. scene.walk.kind ≡ Worst) }
    ensures time { IfOk result (λ scene. scene.walk.time ≡ bound_of analysis.now) }
    ensures shares { IfOk result (λ scene. scene.shares ≡ shares) }
{
    let walk = Walk {
        kind: Kind::Worst,
        angle: u64::from(analysis.angle()),
        time: u128::from(analysis.bound()),
    };
    let hops = Hops {
        visits: analysis.walk(),
        angle: walk.angle,
        times,
    };
    let mut tallies = Tallies::new(alloc)?;
    hops.count(&mut tallies);
    for worst in analysis.table() {
        tallies.note_executed(worst.place);
    }
    tallies.note_loaded(deck);
    let (rows, extent) = hops.rows(alloc, walk, &tallies)?;
    Ok(Scene {
        walk,
        tallies,
        edges: Edges::of_visits(alloc, hops.visits)?,
        shares,
        rows,
        extent,
        braces: Braces::new(alloc),
    })
}
