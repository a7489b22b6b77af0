//! What is open at the nodes of a flow graph, each once, by its index.

ghost use Rattle.std.specs.Prelude.{◌≡◌, ℕ, ◌<◌, ◌≤◌, [], true, nat_eq, List, Option, length};
ghost use Rattle.std.specs.Prelude.{slice_get, slice_index_or, Contains, Some, IfOk, IfErr, IfSome};
ghost use Rattle.std.specs.Prelude.{IfNone};
ghost use Rattle.std.specs.Option.{option_eq};
ghost use Rattle.std.specs.Cmp.Lexicographic.{pointwise};
ghost use Rattle.machine_steps.specs.Calls.{open_after};
ghost use Rattle.machine_steps.specs.OpenIn.{between, open_in};
ghost use Rattle.flow_graph.specs.InNodes.{ArePlacedIn, ways_in};

use base_notes::Call;
use base_words::Location;
use machine_steps::Open;
use std::alloc::AllocError;

/// Whether the same is open.
fn is_same(calls: &[Call], one: &Open, other: &Open) -> bool
    requires { length calls.now ≤ 64 }
    ensures { result ≡ pointwise (option_eq nat_eq) (open_in one.now calls.now)
        (open_in other.now calls.now) }
{
    one.ways[..calls.len()] == other.ways[..calls.len()]
}

/// The index of what is open among all that is; `None` where it isn't there.
fn index_of(openings: &[Open], calls: &[Call], ways: &Open) -> Option<usize>
    requires { length calls.now ≤ 64 }
    ensures found { IfSome result (λ index. slice_get (ways_in calls.now openings.now) index
        ≡ Some (open_in ways.now calls.now)) }
    ensures none { IfNone result (¬ Contains (ways_in calls.now openings.now)
        (open_in ways.now calls.now)) }
{
    for (index, other) in openings.iter().enumerate() {
        if is_same(calls, ways, other) {
            return Some(index);
        }
    }
    None
}

/// Whether what is open stays so behind a step from the one location to the other: the edge is that
/// of no call, and the location the exit of none.
fn keeps_open(calls: &[Call], from: Location, onto: Location) -> bool
    ensures { result ≡ true → (ways : List (Option ℕ)) → length ways ≤ length calls.now
        → open_after calls.now (between from onto) ways ≡ ways }
{
    for call in calls {
        if call.exit.number == from.number || call.edge.leads(from, onto) {
            return false;
        }
    }
    true
}

/// The index of what is open behind a step from the one location to the other, where what is open
/// before it has the index `before`.
///
/// # Errors
///
/// What is open behind it, where that isn't there.
pub(crate) fn behind(
    openings: &[Open],
    calls: &[Call],
    before: usize,
    from: Location,
    onto: Location,
) -> Result<usize, Open>
    requires few { length calls.now ≤ 64 }
    requires within { before < length openings.now }
    ensures there { IfOk result (λ index. slice_get (ways_in calls.now openings.now) index
        ≡ Some (open_after calls.now (between from onto)
        (slice_index_or (ways_in calls.now openings.now) before []))) }
    ensures new { IfErr result (λ after. (open_in after calls.now
        ≡ open_after calls.now (between from onto)
        (slice_index_or (ways_in calls.now openings.now) before []))
        × ¬ Contains (ways_in calls.now openings.now) (open_in after calls.now)) }
{
    let open = &openings[before];
    if keeps_open(calls, from, onto) {
        return Ok(before);
    }
    let after = open.after(calls, from, onto);
    match index_of(openings, calls, &after) {
        Some(index) => Ok(index),
        None => Err(after),
    }
}

/// The same index, where what is open behind the step is added unless it is there.
pub(crate) fn index_behind(
    openings: &mut Vec<Open>,
    calls: &[Call],
    before: usize,
    from: Location,
    onto: Location,
) -> Result<usize, AllocError>
    requires few { length calls.now ≤ 64 }
    requires within { before < length openings.old.items }
    ensures { IfOk result (λ index. ArePlacedIn calls.now openings.old.items openings.new.items
        (open_after calls.now (between from onto)
        (slice_index_or (ways_in calls.now openings.old.items) before [])) index) }
{
    match behind(openings, calls, before, from, onto) {
        Ok(index) => Ok(index),
        Err(open) => {
            let index = openings.len();
            openings.push(open)?;
            Ok(index)
        }
    }
}
