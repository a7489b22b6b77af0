//! What a worst walk of documents is told by: an analysis or, where they have no bound, a ceiling
//! with a walk in rounds.

ghost use Rattle.std.specs.Prelude.{◌≡◌, IfOk, IfErr};
ghost use Rattle.program_limits.specs.Limits.{HaveNoBound, IsCeilingFault};
ghost use Rattle.program_answers.specs.Basis.{IsBasis};

use crate::analysis::analysis_of;
use bound_scan::Analysis;
use ceiling_checked::Bracket;
use flow_graph::Refusal;
use print_lines::Fault;
use program_limits::bracket_of;
use read_documents::Documents;
use std::alloc::Global;

/// What a worst walk is told by.
#[derive(Drop)]
pub enum Basis {
    /// A walk that takes as long as the bound.
    Bound(Analysis),
    /// A walk in rounds beside a ceiling.
    Ceiling(Bracket),
}

/// What a worst walk of documents is told by: of short notes that have a bound by it, of others by
/// a ceiling.
///
/// # Errors
///
/// [`Fault::Refused`] where the deck with its notes isn't accepted, but for its size; where what no
/// ceiling is above is 2^127 word times or more; or there is no memory.
pub fn basis_of(alloc: Global, documents: &Documents) -> Result<Basis, Fault>
    ensures basis { IfOk result (IsBasis documents.now) }
    ensures fault { IfErr result (IsCeilingFault documents.now) }
{
    if !documents.notes.is_short() {
        return past_bound(alloc, documents);
    }
    match analysis_of(alloc, documents) {
        Ok(analysis) => Ok(Basis::Bound(analysis)),
        Err(Fault::Refused(Refusal::TooLarge(_))) => past_bound(alloc, documents),
        Err(fault) => Err(fault),
    }
}

/// The same, where they have no bound.
fn past_bound(alloc: Global, documents: &Documents) -> Result<Basis, Fault>
    requires none { HaveNoBound documents.now }
    ensures basis { IfOk result (IsBasis documents.now) }
    ensures fault { IfErr result (IsCeilingFault documents.now) }
{
    Ok(Basis::Ceiling(bracket_of(alloc, documents)?))
}
