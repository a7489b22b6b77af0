//! The marks that are lacking, to be pasted: a table for each edge that asks for a mark of its own,
//! with those edges that share it.

ghost use Rattle.std.specs.Prelude.{◌≡◌, flat_map, is_some, map};
ghost use Rattle.std.specs.List.{list_any};
ghost use Rattle.base_notes.specs.EdgeOf.{edge_of};
ghost use Rattle.print_lines.specs.Stands.{Passes};
ghost use Rattle.check_findings.specs.FindingOf.{seen};
ghost use Rattle.check_findings.specs.Shared.{asks_to_share, shared_onto};
ghost use Rattle.check_findings.specs.Lacking.{alone_text, edges_text, further_text, long_text};
ghost use Rattle.check_findings.specs.Lacking.{mark_for, mark_text, marks_text, pair_text};
ghost use Rattle.check_findings.specs.Lacking.{several_text, within_text};

use crate::finding::Finding;
use crate::lengths::one_is_shared;
use crate::within::Within;
use base_devices::Output;
use base_notes::Edge;
use base_words::Location;
use print_lines::Sheet;

/// Puts the edge of a mark on one edge.
#[tactic(auto, using(print_lines::proofs::Passing::passing))]
fn put_alone<O: Output>(sheet: &mut Sheet, writer: &mut O, edge: Edge)
    ensures { Passes (O.device writer.old) sheet.old (O.device writer.new) sheet.new
        (alone_text (edge_of edge)) }
{
    sheet.put(writer, b"from = ");
    sheet.put_number(writer, edge.from.number());
    sheet.put(writer, b"\nto = ");
    sheet.put_number(writer, edge.onto.number());
    sheet.put(writer, b"\n");
}

/// Puts an edge of a mark on several.
#[tactic(auto, using(print_lines::proofs::Passing::passing))]
fn put_pair<O: Output>(sheet: &mut Sheet, writer: &mut O, edge: Edge)
    ensures { Passes (O.device writer.old) sheet.old (O.device writer.new) sheet.new
        (pair_text (edge_of edge)) }
{
    sheet.put(writer, b"[");
    sheet.put_number(writer, edge.from.number());
    sheet.put(writer, b", ");
    sheet.put_number(writer, edge.onto.number());
    sheet.put(writer, b"]");
}

/// Puts the edge of a finding behind others of a mark that it shares, if it shares that of edges
/// which go back to this location.
#[tactic(auto, using(print_lines::proofs::Passing::passing))]
fn put_further<O: Output>(sheet: &mut Sheet, writer: &mut O, finding: &Finding, head: Location)
    ensures { Passes (O.device writer.old) sheet.old (O.device writer.new) sheet.new
        (further_text head.number (seen finding.now)) }
{
    if let Some(edge) = finding.shared_onto(head) {
        sheet.put(writer, b", ");
        put_pair(sheet, writer, edge);
    }
}

/// Puts the further edges of a mark on several that go back to this location.
#[tactic(auto, using(print_lines::proofs::Passing::passing))]
fn put_all_further<O: Output>(
    sheet: &mut Sheet,
    writer: &mut O,
    findings: &[Finding],
    head: Location,
)
    ensures { Passes (O.device writer.old) sheet.old (O.device writer.new) sheet.new
        (flat_map (further_text head.number) (map seen findings.now)) }
{
    for finding in findings {
        put_further(sheet, writer, finding, head);
    }
}

/// Puts the edges of a mark on several, of which this is the first.
#[tactic(auto, using(print_lines::proofs::Passing::passing))]
fn put_several<O: Output>(sheet: &mut Sheet, writer: &mut O, findings: &[Finding], edge: Edge)
    ensures { Passes (O.device writer.old) sheet.old (O.device writer.new) sheet.new
        (several_text (map seen findings.now) (edge_of edge)) }
{
    sheet.put(writer, b"edges = [");
    put_pair(sheet, writer, edge);
    put_all_further(sheet, writer, findings, edge.onto);
    sheet.put(writer, b"]\n");
}

/// Whether some edge shares the mark of those that go back to this location. `shared` says whether
/// any edge shares a mark: where there are millions, none does, and none is looked for.
fn is_shared_at(findings: &[Finding], shared: bool, head: Location) -> bool
    requires { shared ≡ list_any asks_to_share (map seen findings.now) }
    ensures { result ≡ list_any (λ finding. is_some (shared_onto head.number finding))
        (map seen findings.now) }
{
    if !shared {
        return false;
    }
    for finding in findings {
        if finding.is_shared_onto(head) {
            return true;
        }
    }
    false
}

/// Puts the edges of a mark, of which this is the first.
#[tactic(auto, using(print_lines::proofs::Passing::passing))]
fn put_edges<O: Output>(
    sheet: &mut Sheet,
    writer: &mut O,
    findings: &[Finding],
    shared: bool,
    edge: Edge,
)
    requires { shared ≡ list_any asks_to_share (map seen findings.now) }
    ensures { Passes (O.device writer.old) sheet.old (O.device writer.new) sheet.new
        (edges_text (map seen findings.now) (edge_of edge)) }
{
    if is_shared_at(findings, shared, edge.onto) {
        return put_several(sheet, writer, findings, edge);
    }
    put_alone(sheet, writer, edge);
}

/// Puts the line that says inside which other mark a mark stands, if it does, or why there is none.
#[tactic(auto, using(print_lines::proofs::Passing::passing))]
fn put_within<O: Output>(sheet: &mut Sheet, writer: &mut O, within: Within)
    ensures { Passes (O.device writer.old) sheet.old (O.device writer.new) sheet.new
        (within_text within) }
{
    match within {
        Within::Run | Within::Shared => {}
        Within::Mark(mark) => {
            sheet.put(writer, b"inside = ");
            sheet.put_number(writer, mark);
            sheet.put(writer, b" # without this line, most is of the whole run\n");
        }
        Within::SeveralWays => {
            sheet.put(
                writer,
                b"# inside several ways back of one loop: most is of the whole run\n",
            );
        }
    }
}

/// Puts the mark of which this edge is the first, with the mark that it is to stand inside of.
#[tactic(auto, using(print_lines::proofs::Passing::passing))]
fn put_mark<O: Output>(
    sheet: &mut Sheet,
    writer: &mut O,
    findings: &[Finding],
    shared: bool,
    edge: Edge,
    within: Within,
)
    requires { shared ≡ list_any asks_to_share (map seen findings.now) }
    ensures { Passes (O.device writer.old) sheet.old (O.device writer.new) sheet.new
        (mark_text (map seen findings.now) (edge_of edge) within) }
{
    sheet.put(writer, b"[[mark]]\nmost =\n");
    put_edges(sheet, writer, findings, shared, edge);
    put_within(sheet, writer, within);
}

/// Puts the mark that a finding asks for, if it asks for one of its own.
#[tactic(auto, using(print_lines::proofs::Passing::passing))]
fn put_mark_for<O: Output>(
    sheet: &mut Sheet,
    writer: &mut O,
    findings: &[Finding],
    shared: bool,
    finding: &Finding,
)
    requires { shared ≡ list_any asks_to_share (map seen findings.now) }
    ensures { Passes (O.device writer.old) sheet.old (O.device writer.new) sheet.new
        (mark_for (map seen findings.now) (seen finding.now)) }
{
    if let Finding::Loop { edge, within } = *finding {
        if within.is_shared() {
            return;
        }
        put_mark(sheet, writer, findings, shared, edge, within);
    }
}

/// Puts the marks that are lacking.
#[tactic(auto, using(print_lines::proofs::Passing::passing))]
pub fn put_marks<O: Output>(sheet: &mut Sheet, writer: &mut O, findings: &[Finding])
    ensures { Passes (O.device writer.old) sheet.old (O.device writer.new) sheet.new
        (marks_text (map seen findings.now)) }
{
    let shared = one_is_shared(findings);
    for finding in findings {
        put_mark_for(sheet, writer, findings, shared, finding);
    }
}

/// Puts the line that says that the notes with the marks behind it are long, if they are.
#[tactic(auto, using(print_lines::proofs::Passing::passing))]
pub fn put_long<O: Output>(sheet: &mut Sheet, writer: &mut O, long: bool)
    ensures { Passes (O.device writer.old) sheet.old (O.device writer.new) sheet.new
        (long_text long) }
{
    if long {
        sheet.put(writer, b"# long notes (64 marks at most): ");
        sheet.put(
            writer,
            b"not for bound, report, table, size, replay or draw with inputs\n",
        );
    }
}
