//! Which exits of subroutines are open, and with which way back.

ghost use Rattle.std.specs.Prelude.{◌≡◌, ◌≤◌, List, length, Some, MatchBool};
ghost use Rattle.base_notes.specs.declared.notes.call.Call.{Call as Said};
ghost use Rattle.machine_steps.specs.Calls as calling;
ghost use Rattle.machine_steps.specs.OpenIn.{number_of, between};

use base_notes::Call;
use base_words::Location;

/// What is open: for each call, by its index, the way back that is open at its exit. What stands
/// past the last call means nothing.
#[derive(Clone, Copy, Debug)]
pub struct Open {
    pub ways: [Option<Location>; Call::MOST],
}

/// The way back with which a step from the one location to the other opens an exit; `None` where
/// it doesn't.
fn opened_by(calls: &[Call], from: Location, onto: Location, exit: Location) -> Option<Location>
    ensures { number_of result ≡ calling.opened_by calls.now (between from onto) exit.number }
{
    for call in calls {
        if call.edge.leads(from, onto) && call.exit.number == exit.number {
            return Some(call.back);
        }
    }
    None
}

/// The way back that is open at an exit behind a step, where this one was open before it.
fn way_behind(
    calls: &[Call],
    from: Location,
    onto: Location,
    exit: Location,
    way: Option<Location>,
) -> Option<Location>
    ensures { number_of result
        ≡ calling.way_behind calls.now (between from onto) exit.number (number_of way) }
{
    match opened_by(calls, from, onto, exit) {
        Some(back) => Some(back),
        None if exit.number == from.number => None,
        None => way,
    }
}

/// Whether a step may go from the one location to the other, for all that this exit says, at which
/// this way back is open.
fn lets_go(exit: Location, way: Option<Location>, from: Location, onto: Location) -> bool
    ensures { let may = exit.number ≡ from.number → number_of way ≡ Some onto.number in
        MatchBool result may (¬ may) }
{
    if exit.number != from.number {
        return true;
    }
    match way {
        Some(back) => back.number == onto.number,
        None => false,
    }
}

impl Open {
    ghost use Rattle.machine_steps.specs.OpenIn.{open_in};

    /// Nothing.
    pub fn none() -> Open
        ensures { (calls : List Said) → length calls ≤ 64
            → open_in result calls ≡ calling.none_open calls }
    {
        Open {
            ways: [None; Call::MOST],
        }
    }

    /// Whether a step may go from the one location to the other: from the exit of a call it goes to
    /// the way back that is open there.
    pub fn may_go(&self, calls: &[Call], from: Location, onto: Location) -> bool
        requires few { length calls.now ≤ 64 }
        ensures { let may = calling.MayGo calls.now (open_in self.now calls.now) (between from onto)
            in MatchBool result may (¬ may) }
    {
        for (place, call) in calls.iter().enumerate() {
            if !lets_go(call.exit, self.ways[place], from, onto) {
                return false;
            }
        }
        true
    }

    /// What is open behind a step from the one location to the other.
    pub fn after(&self, calls: &[Call], from: Location, onto: Location) -> Open
        requires few { length calls.now ≤ 64 }
        ensures { open_in result calls.now
            ≡ calling.open_after calls.now (between from onto) (open_in self.now calls.now) }
    {
        let mut open = *self;
        for (place, call) in calls.iter().enumerate() {
            open.ways[place] = way_behind(calls, from, onto, call.exit, self.ways[place]);
        }
        open
    }
}
