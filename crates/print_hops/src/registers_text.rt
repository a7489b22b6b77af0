//! The registers of a machine and its overflow latch, in the line of a step.

ghost use Rattle.std.specs.Prelude.{◌≡◌, List};
ghost use Rattle.machine_steps.specs.declared.card.Card.{Card};
ghost use Rattle.machine_emulator.specs.Machine.{held_by};
ghost use Rattle.print_lines.specs.Stands.{Passes};
ghost use Rattle.print_hops.specs.ContentsText.{
  accumulator_text,
  latch_text as latch_of,
  registers_text,
  remainder_text,
  sign as sign_of,
};

use base_devices::Output;
use machine_emulator::Machine;
use print_lines::{Sheet, spelling_of};

/// The sign of what is minus, or isn't.
fn sign(minus: bool) -> u8
    ensures { result ≡ sign_of minus }
{
    if minus { b'-' } else { b'+' }
}

/// The text of a number in the accumulator: a sign and twenty digits.
fn spelled(number: i128) -> [u8; 21]
    ensures { result ≡ accumulator_text number }
{
    let sign = sign(number < 0);
    let mut text = [sign; 21];
    let mut rest = number.unsigned_abs();
    for place in 0..20 {
        text[20 - place] = b'0' + (rest % 10) as u8;
        rest /= 10;
    }
    text
}

/// Puts a remainder's sign, while it stands.
#[tactic(auto, using(print_lines::proofs::Passing::passing))]
fn put_remainder<O: Output>(sheet: &mut Sheet, writer: &mut O, remainder: Option<bool>)
    ensures { Passes (O.device writer.old) sheet.old (O.device writer.new) sheet.new
        (remainder_text remainder) }
{
    match remainder {
        Some(true) => sheet.put(writer, b" remainder -"),
        Some(false) => sheet.put(writer, b" remainder +"),
        None => {}
    }
}

/// Whether the latch is on, as text.
fn latch_text(latch: bool) -> &'static [u8]
    ensures { result.now ≡ latch_of latch }
{
    if latch { b" latch on" } else { b" latch off" }
}

/// Puts the registers of a machine and its latch.
pub fn put_registers<O: Output>(sheet: &mut Sheet, writer: &mut O, machine: &Machine)
    ensures { (cards : List Card) →
        Passes (O.device writer.old) sheet.old (O.device writer.new) sheet.new
        (registers_text (held_by machine.now cards)) }
{
    sheet.put(writer, b" accumulator ");
    sheet.put(writer, &spelled(machine.accumulator()));
    put_remainder(sheet, writer, machine.remainder());
    sheet.put(writer, b" distributor ");
    sheet.put(writer, &spelling_of(machine.distributor()));
    sheet.put(writer, latch_text(machine.latch()));
}
