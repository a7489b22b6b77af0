//! The lines of where the word times of the worst walk go.

ghost use Rattle.std.specs.Prelude.{flat_map};
ghost use Rattle.base_notes.specs.Entries.{entry_in};
ghost use Rattle.bound_scan.specs.AnalysisOf.{angle_of, bound_of, visits_of};
ghost use Rattle.print_lines.specs.Stands.{Passes};
ghost use Rattle.print_hops.specs.WaitsText.{waits_text};
ghost use Rattle.print_walks.specs.WaitsOf.{AreWaits, firsts_of, row_text};

use crate::waits::Waits;
use crate::waits::wait::Wait;
use base_devices::Output;
use base_notes::Times;
use bound_scan::Analysis;
use print_hops::{TimedHop, put_kind, put_total};
use print_lines::{Sheet, put_bound};

/// Puts the lines of rows.
fn put_rows<O: Output>(sheet: &mut Sheet, writer: &mut O, rows: &[Wait], times: &Times, angle: u8)
    ensures { Passes (O.device writer.old) sheet.old (O.device writer.new) sheet.new
        (flat_map (row_text (entry_in times.now) angle) rows.now) }
{
    for wait in rows {
        let told = TimedHop::of(&wait.first);
        put_kind(sheet, writer, &told, &wait.sums, times, angle);
    }
}

/// Puts where the word times of the worst walk of an analysis go, a line for each kind of hops and
/// one for all, and the bound. The waits and the timing table have to be those of the analysis. It
/// takes no memory.
pub fn put_waits<O: Output>(
    sheet: &mut Sheet,
    writer: &mut O,
    waits: &Waits,
    analysis: &Analysis,
    times: &Times,
)
    ensures { AreWaits (entry_in times.now) (angle_of analysis.now)
        (visits_of analysis.now) waits.now
        → Passes (O.device writer.old) sheet.old (O.device writer.new) sheet.new
        (waits_text (entry_in times.now) (angle_of analysis.now) (visits_of analysis.now)
        (firsts_of waits.now) (bound_of analysis.now)) }
{
    let bound = analysis.bound();
    put_rows(sheet, writer, waits.rows(), times, analysis.angle());
    put_total(sheet, writer, u128::from(bound), &waits.waited);
    put_bound(sheet, writer, bound);
}
