//! Laws of the definitions of `read_documents`.

ghost use Rattle.std.specs.Prelude.{◌≡◌, ◌≤◌, ℕ};
ghost use Rattle.flow_walks.specs.Worst.{IsWorst};
ghost use Rattle.ceiling_checked.specs.declared.answer.Ceiling.{Ceiling};
ghost use Rattle.ceiling_checked.specs.CeilingOf.{total_of};
ghost use Rattle.print_lines.specs.declared.limit.Limit.{Limit};
ghost use Rattle.read_documents.specs.declared.documents.Documents.{Documents};
ghost use Rattle.read_documents.specs.Documents.{setting_of};
ghost use Rattle.program_limits.specs.Limits.{IsCeiling, IsLimit};

use crate::acceptance::accepted_is_not_refused;

/// A ceiling of documents is never below what their worst walk takes.
pub fn no_ceiling_is_below_the_bound()
    ensures { (documents : Documents) (bound : ℕ) (ceiling : Ceiling)
        → IsWorst (setting_of documents) bound → IsCeiling documents ceiling
        → bound ≤ total_of ceiling }
{}

/// What limits a run is either a bound or a ceiling: no documents have both.
pub fn one_limit()
    ensures { (documents : Documents) (by other : Limit) (most least : ℕ)
        → IsLimit documents by most → IsLimit documents other least → by ≡ other }
{
    accepted_is_not_refused();
}
