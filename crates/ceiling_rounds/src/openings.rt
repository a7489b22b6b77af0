//! What hops ask of what is open at the exits of all calls, and how they leave it.

ghost use Rattle.std.specs.Prelude.{◌≡◌, ◌≤◌, [], ◌∷◌, List, length, IfOk, IfSome, IsTrue};
ghost use Rattle.base_notes.specs.declared.notes.call.Call.{Call as Said};
ghost use Rattle.machine_steps.specs.Calls.{none_open};
ghost use Rattle.machine_steps.specs.OpenIn.{between};
ghost use Rattle.machine_steps.specs.WaysLeft.{seen_way};
ghost use Rattle.flow_graph.specs.Walk.{edge_taken};
ghost use Rattle.ceiling_rounds.specs.Opening.{AreBoth, AreRight, IsBothAt, Meet};

use crate::opening::Opening;
use base_notes::Call;
use base_words::Location;
use machine_steps::{Open, Way};
use std::alloc::{AllocError, Global};

/// No step: nothing is asked, and all stays as it is.
pub fn none_changed(alloc: Global, calls: &[Call]) -> Result<Vec<Opening>, AllocError>
    ensures { IfOk result (λ openings. AreRight calls.now [] openings.items) }
{
    let kept = vec![in alloc; Opening::Kept; calls.len()]?;
    Ok(kept)
}

/// What a step from the one location to the other asks, and how it leaves what is open.
fn of_step(
    alloc: Global,
    calls: &[Call],
    from: Location,
    onto: Location,
) -> Result<Vec<Opening>, AllocError>
    requires few { length calls.now ≤ 64 }
    ensures { IfOk result (λ openings.
        AreRight calls.now (between from onto ∷ []) openings.items) }
{
    let opened = Open::none().after(calls, from, onto);
    let mut openings = Vec::new(alloc);
    for (index, call) in calls.iter().enumerate() {
        openings.push(Opening::of_step(call.exit, opened.ways[index], from, onto))?;
    }
    Ok(openings)
}

/// What a hop of a location by this way asks, and how it leaves what is open.
pub fn of_hop(
    alloc: Global,
    calls: &[Call],
    from: Location,
    way: Way,
) -> Result<Vec<Opening>, AllocError>
    requires few { length calls.now ≤ 64 }
    ensures { IfOk result (λ openings.
        AreRight calls.now (edge_taken from.number (seen_way way)) openings.items) }
{
    match way {
        Way::To(onto) => of_step(alloc, calls, from, onto),
        Way::Early | Way::Late => none_changed(alloc, calls),
    }
}

/// The openings at an index, one behind the other; `None` where there are none, or the second asks
/// what the first doesn't leave open.
fn followed_at(firsts: &[Opening], nexts: &[Opening], index: usize) -> Option<Opening>
    ensures { IfSome result (IsBothAt firsts.now nexts.now index) }
{
    let first = firsts.get(index)?;
    let next = nexts.get(index)?;
    let both = first.then(*next)?;
    Some(both)
}

/// Openings and then as many others; `None` where one of these asks what isn't left open.
pub fn followed(
    alloc: Global,
    firsts: &[Opening],
    nexts: &[Opening],
) -> Result<Option<Vec<Opening>>, AllocError>
    requires { length firsts.now ≡ length nexts.now }
    ensures { IfOk result (λ made. IfSome made (λ all.
        AreBoth firsts.now nexts.now all.items)) }
{
    let mut all = Vec::new(alloc);
    for index in 0..firsts.len() {
        let Some(both) = followed_at(firsts, nexts, index) else {
            return Ok(None);
        };
        all.push(both)?;
    }
    Ok(Some(all))
}

/// Whether no exit has to be open when they begin.
pub fn ask_nothing(openings: &[Opening]) -> bool
    ensures { IsTrue result → (calls : List Said) → Meet openings.now (none_open calls) }
{
    for opening in openings {
        if !opening.asks_nothing() {
            return false;
        }
    }
    true
}
