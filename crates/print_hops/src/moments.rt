//! When an instruction is found, is ready and has its data.

use crate::timed_hop::TimedHop;
use base_notes::Times;
use base_words::Op;
use machine_steps::Way;
use machine_steps::moments::{found, reached};

/// When an instruction is found, is ready and has its data, in word times used.
#[derive(Clone, Copy)]
pub struct Moments {
    /// When its word can be had: on the drum, when its location comes under the heads.
    pub found: u64,
    /// When its operation can begin; `None` where the profile doesn't have it.
    pub ready: Option<u64>,
    /// When its operation has its data; `None` where it stops before it acts.
    pub operand: Option<u64>,
}

impl Moments {
    ghost use Rattle.std.specs.Prelude.{◌≡◌, ◌+◌, ◌-◌, ◌^◌, ◌≤◌, ◌||◌, Some, None, not};
    ghost use Rattle.std.specs.Prelude.{if◌then◌else◌};
    ghost use Rattle.base_words.specs.Op.{operand_of, is_operand};
    ghost use Rattle.base_notes.specs.Entries.{entry_in};
    ghost use Rattle.machine_steps.specs.Timing.{reached as reached_at};
    ghost use Rattle.machine_steps.specs.WaysLeft.{seen_way};
    ghost use Rattle.print_hops.specs.Moments.{is_early, moments_of};

    /// The moments of a hop, on a drum with this angle at time 0.
    pub fn of(told: &TimedHop, times: &Times, angle: u8) -> Moments
        requires { told.now.begun ≤ 2 ^ 62 }
        ensures { result ≡ moments_of (entry_in times.now) angle told.now.place.number
            told.now.instruction (seen_way told.now.way) told.now.begun }
    {
        let start = u64::from(angle);
        let clock = found(told.place, start + told.begun);
        let Some(op) = Op::of(told.instruction.op()) else {
            return Moments {
                found: clock - start,
                ready: None,
                operand: None,
            };
        };
        let x = clock + u64::from(times.entry(op).before);
        Moments {
            found: clock - start,
            ready: Some(x - start),
            operand: Moments::operand_from(x, told, op, start),
        }
    }

    /// From the clock x on, the word times used when the operation has its data.
    fn operand_from(x: u64, told: &TimedHop, op: Op, start: u64) -> Option<u64>
        requires soon { x ≤ 2 ^ 62 + 2 ^ 39 }
        requires later { start ≤ x }
        ensures { let d = told.now.instruction.d in result
            ≡ (if is_early (seen_way told.now.way) || not (is_operand (operand_of op) d) then None
            else Some (reached_at op d x - start)) }
    {
        let d = told.instruction.d();
        if matches!(told.way, Way::Early) || !op.operand().suits(d) {
            None
        } else {
            Some(reached(op, d, x) - start)
        }
    }
}
