//! What the hops of each kind take in all.

ghost use Rattle.std.specs.Prelude.{◌≡◌, ◌^◌, ◌<◌, ◌≤◌, IfOk, length, map, sum_by};
ghost use Rattle.base_notes.specs.Entries.{entry_in};
ghost use Rattle.flow_walks.specs.Visited.{seen_visit};
ghost use Rattle.print_hops.specs.Waits.{for_data, for_instruction, time_of};
ghost use Rattle.print_hops.specs.KindsOf.{waited_of};
ghost use Rattle.print_walks.specs.KindRows.{AreRows};

use crate::waits::wait::Wait;
use base_notes::Times;
use flow_walks::Visit;
use indexmap::IndexMap;
use print_hops::{Kind, Spent, Sums, TimedHop, Waited};
use std::alloc::{AllocError, Global};

/// What one hop takes.
fn spent_by(visit: &Visit, times: &Times, angle: u8) -> Sums
    ensures visits { result.visits ≡ 1 }
    ensures time { result.time ≡ time_of (seen_visit visit.now) }
    ensures instruction { result.instruction
        ≡ for_instruction (entry_in times.now) angle (seen_visit visit.now) }
    ensures operand { result.operand
        ≡ for_data (entry_in times.now) angle (seen_visit visit.now) }
{
    Sums::of(&Spent::of(&TimedHop::of(visit), times, angle), 1)
}

/// What the hops of each kind take in all, in the order in which the walk comes to the kinds, on a
/// drum with this angle at time 0.
pub fn by_kind(
    alloc: Global,
    walk: &[Visit],
    times: &Times,
    angle: u8,
) -> Result<IndexMap<Kind, Wait>, AllocError>
    requires few { length walk.now ≤ 4000000 }
    requires short { sum_by time_of (map seen_visit walk.now) < 2 ^ 50 }
    ensures { IfOk result (AreRows (entry_in times.now) angle walk.now) }
{
    let mut waits: IndexMap<Kind, Wait> = IndexMap::new(alloc);
    for visit in walk {
        let kind = Kind::of(visit);
        let sums = spent_by(visit, times, angle);
        let wait = match waits.get(&kind) {
            Some(wait) => Wait {
                first: wait.first,
                sums: wait.sums.plus(&sums),
            },
            None => Wait {
                first: *visit,
                sums,
            },
        };
        waits.insert(kind, wait)?;
    }
    Ok(waits)
}

/// What all hops of a walk wait, on a drum with this angle at time 0.
pub fn waited(walk: &[Visit], times: &Times, angle: u8) -> Waited
    requires few { length walk.now ≤ 4000000 }
    ensures { result ≡ waited_of (entry_in times.now) angle (map seen_visit walk.now) }
{
    let mut waited = Waited::none();
    for visit in walk {
        waited = waited.with(&Spent::of(&TimedHop::of(visit), times, angle), 1);
    }
    waited
}
