//! The worst walk of an analysis, visit by visit.

ghost use Rattle.std.specs.Prelude.{flat_map};
ghost use Rattle.base_notes.specs.Entries.{entry_in};
ghost use Rattle.flow_walks.specs.Visited.{seen_visit};
ghost use Rattle.bound_scan.specs.AnalysisOf.{angle_of, bound_of, visits_of};
ghost use Rattle.print_lines.specs.Stands.{Passes};
ghost use Rattle.print_hops.specs.WalkText.{visit_line, walk_text};

use base_devices::Output;
use base_notes::Times;
use bound_scan::Analysis;
use flow_walks::Visit;
use print_hops::{Line, VisitLine};
use print_lines::{Sheet, put_bound};

/// Puts the lines of a walk.
fn put_visits<O: Output>(
    sheet: &mut Sheet,
    writer: &mut O,
    walk: &[Visit],
    times: &Times,
    angle: u8,
)
    ensures { Passes (O.device writer.old) sheet.old (O.device writer.new) sheet.new
        (flat_map (λ visit. visit_line (entry_in times.now) angle (seen_visit visit)) walk.now) }
{
    for visit in walk {
        let line = VisitLine {
            visit,
            times,
            angle,
        };
        line.put(sheet, writer);
    }
}

/// Puts the worst walk of an analysis, visit by visit, and the bound. The timing table has to be
/// the one of the analysis, and the moments are those of a drum with the angle of the walk. It
/// takes no memory.
pub fn put_walk<O: Output>(sheet: &mut Sheet, writer: &mut O, analysis: &Analysis, times: &Times)
    ensures { Passes (O.device writer.old) sheet.old (O.device writer.new) sheet.new
        (walk_text (entry_in times.now) (angle_of analysis.now) (visits_of analysis.now)
        (bound_of analysis.now)) }
{
    put_visits(sheet, writer, analysis.walk(), times, analysis.angle());
    put_bound(sheet, writer, analysis.bound());
}
