//! The line of an entry of the table of worst times.

ghost use Rattle.std.specs.Prelude.{◌≡◌, ◌≤◌, ◌++◌, codes, decimal, flat_map, length};
ghost use Rattle.base_words.specs.Numeral.{digits_of};
ghost use Rattle.print_lines.specs.Stands.{Passes};
ghost use Rattle.bound_scan.specs.RowOf.{row_in};
ghost use Rattle.print_walks.specs.TableText.{count_text, row_line};

use base_devices::Output;
use base_notes::Mark;
use bound_scan::Worst;
use print_hops::Line;
use print_lines::{Sheet, put_location, put_named};

/// An entry, with the marks of the notes.
#[derive(Drop)]
pub struct RowLine<'a> {
    row: &'a Worst,
    marks: &'a [Mark],
    ghost few: { length marks.now ≤ 64 },
}

impl<'a> RowLine<'a> {
    /// An entry, with the marks of the notes.
    pub fn of(row: &'a Worst, marks: &'a [Mark]) -> RowLine<'a>
        requires { length marks.now ≤ 64 }
        ensures row { result.row.now ≡ row.now }
        ensures marks { result.marks.now ≡ marks.now }
    {
        RowLine { row, marks }
    }
}

/// Puts the location and the angle of an entry.
fn put_place<O: Output>(sheet: &mut Sheet, writer: &mut O, row: &Worst)
    ensures { Passes (O.device writer.old) sheet.old (O.device writer.new) sheet.new
        (digits_of 4 row.now.place.number ++ codes " angle " ++ decimal row.now.angle
        ++ codes " counts") }
{
    put_location(sheet, writer, row.place);
    put_named(sheet, writer, b" angle ", row.angle);
    sheet.put(writer, b" counts");
}

/// Puts counts, each behind a space.
#[tactic(auto, using(print_lines::proofs::Passing::passing))]
fn put_counts<O: Output>(sheet: &mut Sheet, writer: &mut O, counts: &[u16])
    ensures { Passes (O.device writer.old) sheet.old (O.device writer.new) sheet.new
        (flat_map count_text counts.now) }
{
    for count in counts {
        put_named(sheet, writer, b" ", *count);
    }
}

impl Line for RowLine<'_> {
    ghost text = { λ line. row_line line.marks.now (row_in line.row.now) };

    fn put<O: Output>(&self, sheet: &mut Sheet, writer: &mut O) {
        let counts = self.row.passes(self.marks);
        put_place(sheet, writer, self.row);
        put_counts(sheet, writer, &counts.passes[..self.marks.len()]);
        put_named(sheet, writer, b" time ", self.row.time);
        sheet.put(writer, b"\n");
    }
}
