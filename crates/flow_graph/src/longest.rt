//! The latest clock at which a hop can end. A clock counts word times from a moment of angle 0 on.

ghost use Rattle.std.specs.Prelude.{◌≡◌, ◌^◌, ◌≤◌, ◌+◌};
ghost use Rattle.base_notes.specs.Entries.{entry_in};
ghost use Rattle.machine_steps.specs.Timing.{longest_step};
ghost use Rattle.machine_steps.specs.WaysLeft.{seen_way};
ghost use Rattle.flow_graph.specs.Longest as defined;
ghost use Rattle.flow_graph.specs.Profile.{MayEnd};

use crate::hops::Hop;
use base_notes::{Entry, Times};
use base_words::{Location, Op};
use machine_rotation::Clockwork;
use machine_steps::chain::{to_end, to_ready};
use machine_steps::{Way, places};

/// The most units of work that the operation may have at this D, whatever the data; at most 90.
fn most_units(op: Op, d: u16) -> u64
    ensures value { result ≡ defined.most_units op d }
    ensures few { result ≤ 90 }
{
    match op {
        Op::Divide | Op::DivideReset | Op::Multiply => 90,
        Op::Shift(shift) => u64::from(places(shift, d)),
        _ => 0,
    }
}

/// The longest wait for the card machine that the operation may have, in word times; at most
/// 1,000,000.
pub fn most_wait(op: Op, entry: Entry) -> u32
    ensures value { result ≡ defined.most_wait op entry }
    ensures short { result ≤ 1000000 }
{
    match op {
        Op::Read | Op::Punch => entry.wait_max,
        _ => 0,
    }
}

/// The latest clock at which a hop of the place can end whose search begins at this clock, with the
/// most units of work and the longest wait that its operation may have: at most 92,000,099 word
/// times later. The operation has to be in the profile.
pub fn longest(times: &Times, place: Location, hop: Hop, clock: u64) -> u64
    requires may_end { MayEnd hop.instruction (seen_way hop.way) }
    requires soon { clock ≤ 2 ^ 61 }
    ensures value { result ≡ defined.longest (entry_in times.now) place.number hop.instruction
        (seen_way hop.way) clock }
    ensures later { clock ≤ result }
    ensures near { result ≤ clock + longest_step }
{
    let Some(op) = Op::of(hop.instruction.op()) else {
        unreachable!()
    };
    let entry = times.entry(op);
    match hop.way {
        Way::Early => to_ready(entry, place).go(clock),
        Way::To(_) | Way::Late => {
            let d = hop.instruction.d();
            let (units, wait) = (most_units(op, d), most_wait(op, entry));
            to_end(entry, op, place, d, units, wait).go(clock)
        }
    }
}
