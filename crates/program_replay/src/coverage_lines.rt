//! The lines of how much of its notes a run has come to: one for each mark, and one for each list.

ghost use Rattle.std.specs.Prelude.{◌≡◌, ◌≤◌, List, flat_map, length};
ghost use Rattle.std.specs.List.{enumerate_from};
ghost use Rattle.base_notes.specs.Listed.{listed};
ghost use Rattle.machine_steps.specs.Run.{Stride};
ghost use Rattle.print_lines.specs.Stands.{Passes};
ghost use Rattle.program_replay.specs.Coverage.{coverage_text, list_line, mark_line, mark_line_at};
ghost use Rattle.program_replay.specs.CoverageOf.{HasSeen, list_line_at, passed_at};

use crate::coverage::Coverage;
use base_devices::Output;
use base_notes::{Listing, Mark, Notes};
use print_lines::{Sheet, put_location, put_name};

/// Puts the line of a mark that was passed so often at most.
fn put_mark<O: Output>(sheet: &mut Sheet, writer: &mut O, mark: &Mark, passed: u16)
    ensures { Passes (O.device writer.old) sheet.old (O.device writer.new) sheet.new
        (mark_line mark.now passed) }
{
    sheet.put(writer, b"mark ");
    put_location(sheet, writer, mark.from);
    sheet.put(writer, b" ");
    put_location(sheet, writer, mark.onto);
    sheet.put(writer, b" most-passed ");
    sheet.put_number(writer, passed);
    sheet.put(writer, b" of ");
    sheet.put_number(writer, mark.most);
    put_name(sheet, writer, mark);
    sheet.put(writer, b"\n");
}

/// Puts the lines of marks.
fn put_marks<O: Output>(sheet: &mut Sheet, writer: &mut O, marks: &[Mark], coverage: &Coverage)
    requires { length marks.now ≤ 64 }
    ensures { Passes (O.device writer.old) sheet.old (O.device writer.new) sheet.new
        (flat_map (mark_line_at (passed_at coverage.now)) (enumerate_from 0 marks.now)) }
{
    for (place, mark) in marks.iter().enumerate() {
        put_mark(sheet, writer, mark, coverage.passed(place));
    }
}

/// Puts the line of a list of which so many patterns were met.
fn put_list<O: Output>(sheet: &mut Sheet, writer: &mut O, list: &Listing, met: usize)
    ensures { Passes (O.device writer.old) sheet.old (O.device writer.new) sheet.new
        (list_line (listed list.now) met) }
{
    sheet.put(writer, b"list ");
    put_location(sheet, writer, list.location);
    sheet.put(writer, b" patterns-met ");
    sheet.put_number(writer, met);
    sheet.put(writer, b" of ");
    sheet.put_number(writer, list.patterns.len());
    sheet.put(writer, b"\n");
}

/// Puts the lines of lists.
fn put_lists<O: Output>(sheet: &mut Sheet, writer: &mut O, lists: &[Listing], coverage: &Coverage)
    requires { length coverage.now.met.items ≡ length lists.now }
    ensures { Passes (O.device writer.old) sheet.old (O.device writer.new) sheet.new
        (flat_map (list_line_at coverage.now) (enumerate_from 0 lists.now)) }
{
    for (place, list) in lists.iter().enumerate() {
        put_list(sheet, writer, list, coverage.met(place));
    }
}

/// Puts a line for each mark of the notes and then one for each list, in their order.
pub fn put_coverage<O: Output>(
    sheet: &mut Sheet,
    writer: &mut O,
    notes: &Notes,
    coverage: &Coverage,
)
    requires { length coverage.now.met.items ≡ length notes.now.lists }
    ensures { (strides : List Stride) → HasSeen notes.now strides coverage.now
        → Passes (O.device writer.old) sheet.old (O.device writer.new) sheet.new
        (coverage_text notes.now strides) }
{
    put_marks(sheet, writer, notes.marks(), coverage);
    put_lists(sheet, writer, notes.lists(), coverage);
}
