//! What a step did to words of the drum, in its line.

ghost use Rattle.std.specs.Prelude.{◌≡◌, ◌+◌, ◌≤◌, ◌++◌, true, IfSome, length};
ghost use Rattle.base_words.specs.Op.{is_operand, op_of, operand_of};
ghost use Rattle.base_words.specs.Word.{spaced};
ghost use Rattle.machine_steps.specs.WaysLeft.{seen_way};
ghost use Rattle.print_lines.specs.Stands.{Passes};
ghost use Rattle.print_hops.specs.ContentsText.{acted_text, acting as acting_in, words_text};

use crate::timed_hop::TimedHop;
use base_devices::Output;
use base_words::{Op, Word};
use machine_steps::Way;
use print_lines::{Sheet, four_digits, spelling_of};

/// The operation of a step that acts; none where it stops before.
fn acting(told: &TimedHop) -> Option<Op>
    ensures told { let ins = told.now.instruction in
        result ≡ acting_in (seen_way told.now.way) (op_of ins.op) ins.d }
    ensures suits { IfSome result (λ op.
        is_operand (operand_of op) told.now.instruction.d ≡ true) }
{
    let Some(op) = Op::of(told.instruction.op()) else {
        return None;
    };
    if matches!(told.way, Way::Early) || !op.operand().suits(told.instruction.d()) {
        None
    } else {
        Some(op)
    }
}

/// Puts words, each behind a space.
fn put_spaced<O: Output>(sheet: &mut Sheet, writer: &mut O, words: &[Word])
    ensures { Passes (O.device writer.old) sheet.old (O.device writer.new) sheet.new
        (spaced words.now) }
{
    for word in words {
        sheet.put(writer, b" ");
        sheet.put(writer, &spelling_of(*word));
    }
}

/// Puts a name, a location, and the `count` words of the drum from there on.
fn put_words<O: Output>(
    sheet: &mut Sheet,
    writer: &mut O,
    name: &[u8],
    drum: &[Word],
    at: u16,
    count: u16,
)
    requires { at + count ≤ length drum.now }
    ensures { Passes (O.device writer.old) sheet.old (O.device writer.new) sheet.new
        (name.now ++ words_text drum.now at count) }
{
    sheet.put(writer, name);
    sheet.put(writer, &four_digits(at));
    let first = usize::from(at);
    put_spaced(sheet, writer, &drum[first..first + usize::from(count)]);
}

/// Puts what a step did to words of the drum, which are those after the step.
pub fn put_acted<O: Output>(sheet: &mut Sheet, writer: &mut O, told: &TimedHop, drum: &[Word])
    requires { length drum.now ≡ 2000 }
    ensures { let ins = told.now.instruction in
        Passes (O.device writer.old) sheet.old (O.device writer.new) sheet.new
        (acted_text (acting_in (seen_way told.now.way) (op_of ins.op) ins.d) ins.d drum.now) }
{
    let d = told.instruction.d();
    match acting(told) {
        Some(Op::Store(_)) => put_words(sheet, writer, b" wrote ", drum, d, 1),
        Some(Op::Read) => put_words(sheet, writer, b"\nread ", drum, 50 * (d / 50) + 1, 10),
        Some(Op::Punch) => put_words(sheet, writer, b"\npunched ", drum, 50 * (d / 50) + 27, 10),
        _ => {}
    }
}
