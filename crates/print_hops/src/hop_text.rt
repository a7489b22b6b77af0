//! Where a hop begins, its instruction and how it ends, in a line.

ghost use Rattle.std.specs.Prelude.{◌≡◌, ◌++◌, codes};
ghost use Rattle.base_words.specs.Numeral.{digits_of};
ghost use Rattle.machine_steps.specs.WaysLeft.{seen_way};
ghost use Rattle.print_lines.specs.Stands.{Passes};
ghost use Rattle.print_hops.specs.TimedHop.{seen_timed};
ghost use Rattle.print_hops.specs.WalkText.{hop_text, way_text};

use crate::timed_hop::TimedHop;
use base_devices::Output;
use base_words::Instruction;
use itoa::Integer;
use machine_steps::Way;
use print_lines::{Sheet, four_digits, put_location, put_named, two_digits};

/// Puts an address behind a space.
fn put_address<O: Output>(sheet: &mut Sheet, writer: &mut O, address: u16)
    ensures { Passes (O.device writer.old) sheet.old (O.device writer.new) sheet.new
        (codes " " ++ digits_of 4 address) }
{
    sheet.put(writer, b" ");
    sheet.put(writer, &four_digits(address));
}

/// Puts an instruction behind a space.
fn put_instruction<O: Output>(sheet: &mut Sheet, writer: &mut O, instruction: Instruction)
    ensures { Passes (O.device writer.old) sheet.old (O.device writer.new) sheet.new
        (codes " " ++ digits_of 2 instruction.op ++ (codes " " ++ digits_of 4 instruction.d)
        ++ (codes " " ++ digits_of 4 instruction.i)) }
{
    sheet.put(writer, b" ");
    sheet.put(writer, &two_digits(instruction.op()));
    put_address(sheet, writer, instruction.d());
    put_address(sheet, writer, instruction.i());
}

/// Puts how a hop ends, or where it goes on, behind a space.
fn put_way<O: Output>(sheet: &mut Sheet, writer: &mut O, way: Way)
    ensures { Passes (O.device writer.old) sheet.old (O.device writer.new) sheet.new
        (codes " " ++ way_text (seen_way way)) }
{
    match way {
        Way::Early => sheet.put(writer, b" early"),
        Way::To(onto) => {
            sheet.put(writer, b" to ");
            put_location(sheet, writer, onto);
        }
        Way::Late => sheet.put(writer, b" late"),
    }
}

/// Puts where a hop begins, its instruction, how it ends, and a named number.
pub fn put_hop<O: Output, I: Integer>(
    sheet: &mut Sheet,
    writer: &mut O,
    told: &TimedHop,
    name: &[u8],
    number: I,
)
    ensures { Passes (O.device writer.old) sheet.old (O.device writer.new) sheet.new
        (hop_text (seen_timed told.now) ++ name.now ++ I.text number) }
{
    put_location(sheet, writer, told.place);
    put_instruction(sheet, writer, told.instruction);
    put_way(sheet, writer, told.way);
    put_named(sheet, writer, name, number);
}
