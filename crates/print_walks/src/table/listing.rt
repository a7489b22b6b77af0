//! The lines of the table of worst times.

ghost use Rattle.std.specs.Prelude.{◌≤◌, flat_map, length};
ghost use Rattle.bound_scan.specs.RowOf.{row_in};
ghost use Rattle.print_lines.specs.Stands.{Passes};
ghost use Rattle.print_walks.specs.TableOf.{rows_in};
ghost use Rattle.print_walks.specs.TableText.{row_line, table_text};

use super::Table;
use super::line::RowLine;
use base_devices::Output;
use base_notes::Mark;
use bound_scan::Worst;
use print_hops::Line;
use print_lines::Sheet;

/// Puts the lines of entries.
fn put_rows<O: Output>(sheet: &mut Sheet, writer: &mut O, rows: &[Worst], marks: &[Mark])
    requires { length marks.now ≤ 64 }
    ensures { Passes (O.device writer.old) sheet.old (O.device writer.new) sheet.new
        (flat_map (λ row. row_line marks.now (row_in row)) rows.now) }
{
    for row in rows {
        RowLine::of(row, marks).put(sheet, writer);
    }
}

/// Puts the table of worst times, a line for each entry, in order. The marks have to be those of
/// the notes of the analysis. It takes no memory.
pub fn put_table<O: Output>(sheet: &mut Sheet, writer: &mut O, table: &Table, marks: &[Mark])
    requires { length marks.now ≤ 64 }
    ensures { Passes (O.device writer.old) sheet.old (O.device writer.new) sheet.new
        (table_text marks.now (rows_in table.now)) }
{
    put_rows(sheet, writer, &table.rows, marks);
}
