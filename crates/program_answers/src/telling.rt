//! What is said of documents, written to standard output, and the status after it.

ghost use Rattle.base_notes.specs.Entries.{entry_in};
ghost use Rattle.bound_scan.specs.AnalysisOf.{angle_of, bound_of, visits_of};
ghost use Rattle.print_lines.specs.Output.{GetsResult};
ghost use Rattle.print_graphs.specs.GraphOf.{loops_in, nodes_in, start_of};
ghost use Rattle.print_graphs.specs.GraphText.{graph_text};
ghost use Rattle.print_walks.specs.Report.{report_text};
ghost use Rattle.print_hops.specs.WaitsText.{waits_text};
ghost use Rattle.print_hops.specs.WalkText.{walk_text};
ghost use Rattle.print_walks.specs.TableOf.{rows_in};
ghost use Rattle.print_walks.specs.TableText.{table_text};
ghost use Rattle.print_walks.specs.WaitsOf.{AreWaits, firsts_of};
ghost use Rattle.print_ceilings.specs.CeilingText.{ceiling_text};
ghost use Rattle.print_ceilings.specs.PieceIndexOf.{IsPieceIndexOf};
ghost use Rattle.print_ceilings.specs.RoundsText.{rounds_text};
ghost use Rattle.print_ceilings.specs.RoundsWaitsOf.{listed};
ghost use Rattle.program_limits.specs.Limits.{IsBracket};

use base_devices::Output;
use bound_scan::Analysis;
use ceiling_checked::Bracket;
use print_ceilings::{PieceIndex, WaitsInRounds, put_ceiling, put_rounds, put_rounds_waits};
use print_graphs::{Graph, put_graph};
use print_lines::{Sheet, Status, end_result};
use print_walks::{Table, Waits, put_table, put_waits, put_walk, report};
use read_documents::Documents;

/// Writes the report of an analysis.
pub fn tell_report<O: Output>(out: &mut O, documents: &Documents, analysis: &Analysis) -> Status
    ensures { GetsResult (O.device out.old) (O.device out.new)
        (report_text documents.now.deck documents.now.notes (visits_of analysis.now))
        Status.Done result }
{
    match report(analysis, &documents.deck, &documents.notes, out) {
        Ok(()) => Status::Done,
        Err(_) => Status::Failed,
    }
}

/// Writes the worst walk of an analysis.
pub fn tell_walk<O: Output>(out: &mut O, documents: &Documents, analysis: &Analysis) -> Status
    ensures { GetsResult (O.device out.old) (O.device out.new)
        (walk_text (entry_in documents.now.times) (angle_of analysis.now) (visits_of analysis.now)
        (bound_of analysis.now)) Status.Done result }
{
    let mut sheet = Sheet::new();
    put_walk(&mut sheet, out, analysis, &documents.times);
    end_result(sheet, out, Status::Done)
}

/// Writes the walk beside a ceiling, by its index.
pub fn tell_rounds<O: Output>(
    out: &mut O,
    documents: &Documents,
    bracket: &Bracket,
    index: PieceIndex,
) -> Status
    requires right { IsBracket documents.now bracket.now }
    requires outlined { IsPieceIndexOf bracket.now.walk index }
    ensures { GetsResult (O.device out.old) (O.device out.new)
        (rounds_text (entry_in documents.now.times) bracket.now) Status.Done result }
{
    let mut sheet = Sheet::new();
    put_rounds(&mut sheet, out, index, bracket, &documents.times);
    end_result(sheet, out, Status::Done)
}

/// Writes where the word times of the worst walk of an analysis go.
pub fn tell_waits<O: Output>(
    out: &mut O,
    documents: &Documents,
    analysis: &Analysis,
    waits: &Waits,
) -> Status
    requires { AreWaits (entry_in documents.now.times) (angle_of analysis.now)
        (visits_of analysis.now) waits.now }
    ensures { GetsResult (O.device out.old) (O.device out.new)
        (waits_text (entry_in documents.now.times) (angle_of analysis.now) (visits_of analysis.now)
        (firsts_of waits.now) (bound_of analysis.now)) Status.Done result }
{
    let mut sheet = Sheet::new();
    put_waits(&mut sheet, out, waits, analysis, &documents.times);
    end_result(sheet, out, Status::Done)
}

/// Writes where the word times of the walk beside a ceiling go.
pub fn tell_rounds_waits<O: Output>(
    out: &mut O,
    documents: &Documents,
    bracket: &Bracket,
    waits: &WaitsInRounds,
) -> Status
    ensures { GetsResult (O.device out.old) (O.device out.new)
        (listed (entry_in documents.now.times) waits.now bracket.now) Status.Done result }
{
    let mut sheet = Sheet::new();
    put_rounds_waits(&mut sheet, out, waits, bracket, &documents.times);
    end_result(sheet, out, Status::Done)
}

/// Writes a table of worst times.
pub fn tell_table<O: Output>(out: &mut O, documents: &Documents, table: &Table) -> Status
    ensures { GetsResult (O.device out.old) (O.device out.new)
        (table_text documents.now.notes.marks (rows_in table.now)) Status.Done result }
{
    let mut sheet = Sheet::new();
    put_table(&mut sheet, out, table, documents.notes.marks());
    end_result(sheet, out, Status::Done)
}

/// Writes a flow graph, or its outline.
pub fn tell_graph<O: Output>(out: &mut O, documents: &Documents, graph: &Graph) -> Status
    ensures { GetsResult (O.device out.old) (O.device out.new)
        (graph_text documents.now.notes.marks (loops_in graph.now) (start_of graph.now)
        (nodes_in graph.now)) Status.Done result }
{
    let mut sheet = Sheet::new();
    put_graph(&mut sheet, out, documents.notes.marks(), graph);
    end_result(sheet, out, Status::Done)
}

/// Writes a ceiling and its walk.
pub fn tell_ceiling<O: Output>(out: &mut O, documents: &Documents, bracket: &Bracket) -> Status
    requires { IsBracket documents.now bracket.now }
    ensures { GetsResult (O.device out.old) (O.device out.new)
        (ceiling_text documents.now.notes bracket.now) Status.Done result }
{
    let mut sheet = Sheet::new();
    put_ceiling(&mut sheet, out, bracket, &documents.notes);
    end_result(sheet, out, Status::Done)
}
