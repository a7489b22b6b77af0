//! Whether the notes are long once the marks that are lacking stand in them.

ghost use Rattle.std.specs.Prelude.{◌≡◌, ◌+◌, ◌<◌, ◌↔◌, IsTrue, map};
ghost use Rattle.std.specs.List.{list_any};
ghost use Rattle.check_findings.specs.FindingOf.{seen};
ghost use Rattle.check_findings.specs.Shared.{asks_to_share};
ghost use Rattle.check_findings.specs.Lacking as said;

use crate::finding::Finding;
use base_notes::{Mark, Notes};

/// How many marks are lacking.
fn marks_lacking(findings: &[Finding]) -> usize
    ensures { result ≡ said.marks_lacking (map seen findings.now) }
{
    findings
        .iter()
        .filter(|finding| finding.asks_for_mark())
        .count()
}

/// Whether some edge shares a mark.
pub fn one_is_shared(findings: &[Finding]) -> bool
    ensures { result ≡ list_any asks_to_share (map seen findings.now) }
{
    for finding in findings {
        if finding.asks_to_share() {
            return true;
        }
    }
    false
}

/// Whether marks and further ones are more than short notes have.
fn are_past_short(marks: usize, more: usize) -> bool
    ensures { IsTrue result ↔ (8 < marks + more) }
{
    marks > Mark::MOST_SHORT || more > Mark::MOST_SHORT - marks
}

/// Whether marks are lacking, and the notes are long once they have them.
pub fn are_long(notes: &Notes, findings: &[Finding]) -> bool
    ensures { result ≡ said.are_long notes.now (map seen findings.now) }
{
    let lacking = marks_lacking(findings);
    if lacking == 0 {
        return false;
    }
    if !notes.is_short() || are_past_short(notes.marks().len(), lacking) {
        return true;
    }
    one_is_shared(findings)
}
