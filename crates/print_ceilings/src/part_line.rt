//! The other lines of a walk in rounds. Times are in word times.

ghost use Rattle.print_lines.specs.Stands.{Passes};
ghost use Rattle.print_ceilings.specs.RoundsText.{again_line, end_line, end_rounds_line};
ghost use Rattle.print_ceilings.specs.RoundsText.{part_line, rounds_line};

use base_devices::Output;
use print_lines::{Sheet, four_digits, put_named};

/// Puts where a part begins, by its number.
pub fn put_part<O: Output>(sheet: &mut Sheet, writer: &mut O, part: usize)
    ensures { Passes (O.device writer.old) sheet.old (O.device writer.new) sheet.new
        (part_line part) }
{
    put_named(sheet, writer, b"part ", part);
    sheet.put(writer, b"\n");
}

/// Puts where a part ends.
pub fn put_end<O: Output>(sheet: &mut Sheet, writer: &mut O, part: usize)
    ensures { Passes (O.device writer.old) sheet.old (O.device writer.new) sheet.new
        (end_line part) }
{
    sheet.put(writer, b"end ");
    put_part(sheet, writer, part);
}

/// Puts that a part comes again: its number, and the word times used when it begins and when it
/// ends.
pub fn put_again<O: Output>(
    sheet: &mut Sheet,
    writer: &mut O,
    part: usize,
    begun: u128,
    ended: u128,
)
    ensures { Passes (O.device writer.old) sheet.old (O.device writer.new) sheet.new
        (again_line part begun ended) }
{
    put_named(sheet, writer, b"part ", part);
    put_named(sheet, writer, b" again begun ", begun);
    put_named(sheet, writer, b" ended ", ended);
    sheet.put(writer, b"\n");
}

/// Puts where so many rounds begin, where the last hop of one begins, and the first of the next.
pub fn put_begin_rounds<O: Output>(
    sheet: &mut Sheet,
    writer: &mut O,
    times: u16,
    from: u16,
    onto: u16,
)
    ensures { Passes (O.device writer.old) sheet.old (O.device writer.new) sheet.new
        (rounds_line times from onto) }
{
    put_named(sheet, writer, b"rounds ", times);
    sheet.put(writer, b" of ");
    sheet.put(writer, &four_digits(from));
    sheet.put(writer, b" ");
    sheet.put(writer, &four_digits(onto));
    sheet.put(writer, b"\n");
}

/// Puts where rounds end, with what each takes, and the word times used then.
pub fn put_end_rounds<O: Output>(sheet: &mut Sheet, writer: &mut O, each: u128, ended: u128)
    ensures { Passes (O.device writer.old) sheet.old (O.device writer.new) sheet.new
        (end_rounds_line each ended) }
{
    put_named(sheet, writer, b"end rounds each ", each);
    put_named(sheet, writer, b" ended ", ended);
    sheet.put(writer, b"\n");
}
