//! How far data addresses are alike: up to where an instruction with them writes the same words,
//! and has the same ways.

ghost use Rattle.std.specs.Prelude.{◌≡◌, ℕ, ◌^◌, ◌<◌, ◌≤◌, ◌&&◌, nat_lt};
ghost use Rattle.base_words.specs.Location.{is_location};
ghost use Rattle.base_words.specs.Op.{op_of};
ghost use Rattle.machine_steps.specs.Ways.{ways};
ghost use Rattle.machine_steps.specs.Writes.{writes};
ghost use Rattle.flow_graph.specs.Alike.{with_d, branches_with};

use base_notes::Notes;
use base_words::{Instruction, Location, Op, Operand};

/// One past the last data address up to which, from the instruction's own on, it writes the same
/// words with each.
pub fn same_writes_end(instruction: Instruction) -> u16
    ensures past { instruction.d < result }
    ensures same { (d : ℕ) → instruction.d ≤ d → d < result
        → writes (with_d instruction d) ≡ writes instruction }
{
    let d = instruction.d;
    if d >= Location::DRUM {
        return 10_000;
    }
    let Some(op) = Op::of(instruction.op) else {
        return 10_000;
    };
    match op {
        Op::Store(_) => d + 1,
        Op::Read => (d / 50 + 1) * 50,
        _ => 10_000,
    }
}

/// One past the last data address up to which, from the instruction's own on, it has the same ways
/// with each, and each is of one part: the drum, the locations beside it, or no location.
pub fn same_ways_end(notes: &Notes, instruction: Instruction) -> u16
    ensures past { instruction.d < result }
    ensures same { (d : ℕ) → instruction.d ≤ d → d < result
        → ways notes.now (with_d instruction d) ≡ ways notes.now instruction }
    ensures drum { (d : ℕ) → instruction.d ≤ d → d < result
        → nat_lt d 2000 ≡ nat_lt instruction.d 2000 }
    ensures locations { (d : ℕ) → instruction.d ≤ d → d < result
        → is_location d ≡ is_location instruction.d }
{
    if may_go_on_at_d(notes, instruction) {
        return instruction.d + 1;
    }
    part_end(instruction.d)
}

/// Whether the instruction may branch, and its D is a location.
fn may_go_on_at_d(notes: &Notes, instruction: Instruction) -> bool
    ensures { result
        ≡ (branches_with notes.now (op_of instruction.op) && is_location instruction.d) }
{
    may_branch(notes, instruction.op) && Operand::Any.suits(instruction.d)
}

/// Whether an operation of this number may branch: 44 to 47, 90 to 99, and 70 with load cards.
fn may_branch(notes: &Notes, number: u8) -> bool
    ensures { result ≡ branches_with notes.now (op_of number) }
{
    match Op::of(number) {
        Some(Op::Branch(_) | Op::BranchOnDigit(_)) => true,
        Some(Op::Read) => notes.load_cards(),
        _ => false,
    }
}

/// One past the last address of the part that this one is in: the drum, the addresses behind it,
/// the locations beside it, the rest.
fn part_end(address: u16) -> u16
    requires { address < 10 ^ 4 }
    ensures past { address < result }
    ensures few { result ≤ 10 ^ 4 }
    ensures drum { (other : ℕ) → address ≤ other → other < result
        → nat_lt other 2000 ≡ nat_lt address 2000 }
    ensures locations { (other : ℕ) → address ≤ other → other < result
        → is_location other ≡ is_location address }
{
    match address {
        0..2000 => 2000,
        2000..8000 => 8000,
        8000..8004 => 8004,
        _ => 10_000,
    }
}
