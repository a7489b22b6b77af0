//! What is drawn of a run.

ghost use Rattle.std.specs.Prelude.{◌≡◌, IfOk};
ghost use Rattle.picture_scene.specs.declared.walk.Kind.TheVariants as kinds;

use crate::hops::Hops;
use crate::run::Run;
use base_notes::{Notes, Times};
use machine_steps::Verdict;
use picture_scene::{Braces, Edges, Kind, Scene, Walk};
use read_decks::Deck;
use std::alloc::{AllocError, Global};

/// What is drawn of a run with this verdict, of a deck, a timing table and notes.
pub fn of_run(
    alloc: Global,
    run: Run,
    verdict: &Verdict,
    deck: &Deck,
    times: &Times,
    notes: &Notes,
) -> Result<Scene, AllocError>
    ensures kind { IfOk result (λ scene. scene.walk.kind ≡ kinds.Run verdict.now) }
    ensures time { IfOk result (λ scene. scene.walk.time ≡ run.time) }
    ensures shares { IfOk result (λ scene. scene.shares ≡ run.shares) }
{
    let Run {
        angle,
        kept,
        mut tallies,
        edges,
        shares,
        time,
    } = run;
    let walk = Walk {
        kind: Kind::Run(*verdict),
        angle,
        time,
    };
    tallies.note_flow(alloc, deck, notes)?;
    let hops = Hops {
        visits: &kept,
        angle,
        times,
    };
    let (rows, extent) = hops.rows(alloc, walk, &tallies)?;
    Ok(Scene {
        walk,
        tallies,
        edges: Edges::of_counts(alloc, &edges)?,
        shares,
        rows,
        extent,
        braces: Braces::new(alloc),
    })
}
