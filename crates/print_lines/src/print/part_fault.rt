//! The line of a part that can't be had.

ghost use Rattle.std.specs.Prelude.{◌≡◌, ◌++◌};
ghost use Rattle.print_lines.specs.Stands.{Passes};
ghost use Rattle.print_lines.specs.FaultText.{part_name, part_text};

use crate::part::{Part, PartFault};
use crate::sheet::Sheet;
use base_devices::Output;

/// What a part is called in the lines of faults.
fn name_of(part: Part) -> &'static [u8]
    ensures { result.now ≡ part_name part }
{
    match part {
        Part::Joined => b"input",
        Part::Deck => b"deck",
        Part::Times => b"times",
        Part::Notes => b"notes",
        Part::Inputs => b"inputs",
    }
}

/// Puts a text, the name of a part, and another text.
#[tactic(auto, using(crate::proofs::Passing::passing))]
pub fn put_part<O: Output>(sheet: &mut Sheet, writer: &mut O, begin: &[u8], part: Part, end: &[u8])
    ensures { Passes (O.device writer.old) sheet.old (O.device writer.new) sheet.new
        (begin.now ++ part_name part ++ end.now) }
{
    sheet.put(writer, begin);
    sheet.put(writer, name_of(part));
    sheet.put(writer, end);
}

/// Puts the line of a part whose bytes can't be had.
pub fn put_part_fault<O: Output>(sheet: &mut Sheet, writer: &mut O, part: Part, fault: PartFault)
    ensures { Passes (O.device writer.old) sheet.old (O.device writer.new) sheet.new
        (part_text (part_name part) fault) }
{
    match fault {
        PartFault::Open => put_part(sheet, writer, b"fault 52 ", part, b" open\n"),
        PartFault::Read => put_part(sheet, writer, b"fault 52 ", part, b" read\n"),
        PartFault::TooLong => put_part(sheet, writer, b"fault 52 ", part, b" toolong\n"),
    }
}
