//! The lines of where the word times of a walk in rounds go.

ghost use Rattle.std.specs.Prelude.{flat_map};
ghost use Rattle.base_notes.specs.Entries.{entry_in};
ghost use Rattle.print_lines.specs.Stands.{Passes};
ghost use Rattle.print_ceilings.specs.RoundsWaitsOf.{listed, row_text};

use super::WaitsInRounds;
use super::kind_row::KindRow;
use crate::prices::put_totals;
use base_devices::Output;
use base_notes::Times;
use ceiling_checked::Bracket;
use print_hops::{put_kind, put_total};
use print_lines::Sheet;

/// Puts the lines of rows.
#[tactic(auto, using(print_lines::proofs::Passing::passing))]
fn put_rows<O: Output>(sheet: &mut Sheet, writer: &mut O, rows: &[KindRow], times: &Times)
    ensures { Passes (O.device writer.old) sheet.old (O.device writer.new) sheet.new
        (flat_map (row_text (entry_in times.now)) rows.now) }
{
    for row in rows {
        put_kind(sheet, writer, &row.told, &row.sums, times, row.angle);
    }
}

/// Puts where the word times of the walk beside a ceiling go, a line for each kind of hops and one
/// for all, then what the walk takes, and the ceiling. To mean anything the waits have to be those
/// of that walk, and the timing table the one with which it was found. It takes no memory.
pub fn put_rounds_waits<O: Output>(
    sheet: &mut Sheet,
    writer: &mut O,
    waits: &WaitsInRounds,
    bracket: &Bracket,
    times: &Times,
)
    ensures { Passes (O.device writer.old) sheet.old (O.device writer.new) sheet.new
        (listed (entry_in times.now) waits.now bracket.now) }
{
    put_rows(sheet, writer, waits.rows(), times);
    put_total(sheet, writer, bracket.walk.total(), &waits.waited);
    put_totals(sheet, writer, bracket);
}
