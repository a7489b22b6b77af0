//! The analysis of documents.

ghost use Rattle.std.specs.Prelude.{◌≡◌, IfOk, IfErr};
ghost use Rattle.flow_graph.specs.Accepted.{counts_of};
ghost use Rattle.flow_graph.specs.Bounded.{IsDeckAccepted};
ghost use Rattle.bound_scan.specs.AnalysisOf.{angle_of, bound_of, counts_in_all};
ghost use Rattle.bound_scan.specs.AnalysisOf.{rows_of, visits_of};
ghost use Rattle.bound_scan.specs.Table.{IsTable};
ghost use Rattle.read_documents.specs.Documents.{setting_of};
ghost use Rattle.program_limits.specs.Limits.{IsAnalysisFault, IsBound, IsWorstWalk};

use bound_scan::{Analysis, analyse};
use print_lines::Fault;
use read_documents::Documents;
use std::alloc::Global;

/// The analysis of documents.
///
/// # Errors
///
/// [`Fault::Refused`] where the deck with its notes isn't accepted, or there is no memory.
pub fn analysis_of(alloc: Global, documents: &Documents) -> Result<Analysis, Fault>
    ensures bound { IfOk result (λ analysis. IsBound documents.now (bound_of analysis)) }
    ensures walk { IfOk result (λ analysis.
        IsWorstWalk documents.now (bound_of analysis) (angle_of analysis) (visits_of analysis)) }
    ensures table { IfOk result (λ analysis.
        IsTable (setting_of documents.now) (rows_of analysis)) }
    ensures accepted { IfOk result (λ _. IsDeckAccepted (setting_of documents.now)) }
    ensures counts { IfOk result (λ analysis.
        counts_in_all analysis ≡ counts_of documents.now.notes.marks) }
    ensures fault { IfErr result (IsAnalysisFault documents.now) }
{
    Ok(analyse(alloc, &documents.deck, &documents.times, &documents.notes)?)
}
