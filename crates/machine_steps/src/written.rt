//! Which words an instruction writes.

ghost use Rattle.std.specs.Prelude.{◌≡◌, ◌-◌, ◌<◌, ◌≤◌};
ghost use Rattle.std.specs.List.{range_with_len};
ghost use Rattle.machine_steps.specs.Writes as said;

use base_words::{Instruction, Location, Op};
use std::ops::Range;

/// The drum words that an instruction writes: D for 20 to 24, words 01 to 10 of D's band for 70.
///
/// Source: the IBM 650 Manual of Operation.
pub fn writes(instruction: Instruction) -> Range<u16>
    ensures all { range_with_len result.start (result.end - result.start)
        ≡ said.writes instruction }
    ensures on_drum { result.end ≤ 2000 }
{
    let d = instruction.d;
    if d >= Location::DRUM {
        return 0..0;
    }
    match Op::of(instruction.op) {
        Some(Op::Store(_)) => d..d + 1,
        Some(Op::Read) => {
            let band = d / 50 * 50;
            band + 1..band + 11
        }
        _ => 0..0,
    }
}
