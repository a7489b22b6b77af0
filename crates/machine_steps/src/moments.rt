//! The moments of a step, by the parts of its chain. A clock counts word times from a moment of
//! angle 0 on.

ghost use Rattle.std.specs.Prelude.{◌≡◌, ◌^◌, ◌≤◌, ◌+◌, ◌*◌, true};
ghost use Rattle.machine_rotation.specs.Available.{has_parity};
ghost use Rattle.machine_rotation.specs.Moment.{first};
ghost use Rattle.base_words.specs.Op.{operand_of, is_operand};
ghost use Rattle.machine_steps.specs.Timing.{found as found_at, reached as reached_at};

use crate::chain::{from_ready, to_operand};
use base_notes::Entry;
use base_words::{Location, Op};
use machine_rotation::{Clockwork, Seek};

/// The first moment, from a clock on, at which the word at the location can be had.
pub fn found(location: Location, clock: u64) -> u64
    requires { clock ≤ 2 ^ 62 + 2 ^ 39 }
    ensures value { result ≡ found_at location.number clock }
    ensures later { clock ≤ result }
    ensures near { result ≤ clock + 49 }
{
    Seek::of(location).go(clock)
}

/// The moment, from x on, at which the operation has its operand: x itself where it waits for none.
pub fn reached(op: Op, d: u16, x: u64) -> u64
    requires operand { is_operand (operand_of op) d ≡ true }
    requires soon { x ≤ 2 ^ 62 + 2 ^ 39 }
    ensures value { result ≡ reached_at op d x }
    ensures later { x ≤ result }
    ensures near { result ≤ x + 49 }
{
    to_operand(op, d).go(x)
}

/// The moment at which the step ends that is ready at x, with `units` units of work and a wait of
/// `wait` word times for the card machine.
pub fn ended(entry: Entry, op: Op, d: u16, units: u64, wait: u32, x: u64) -> u64
    requires operand { is_operand (operand_of op) d ≡ true }
    requires work { entry.per * units + wait ≤ 90000000 }
    requires soon { x ≤ 2 ^ 62 + 2 ^ 38 }
    ensures value { let begins = first (has_parity entry.parity) (reached_at op d x) in
        result ≡ begins + entry.after + entry.per * units + wait }
    ensures later { x ≤ result }
    ensures near { result ≤ x + 91000050 }
{
    from_ready(entry, op, d, units, wait).go(x)
}
