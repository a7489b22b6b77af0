use crate::unchanged_parts::UnchangedParts;
use crate::within::Within;
use base_notes::Edge;
use base_words::Location;

/// Something that keeps a deck from having a bound under its notes, or a loose end of the two.
#[derive(Clone, Copy, Debug, PartialEq, Eq)]
pub enum Finding {
    /// This executed location is neither loaded nor listed.
    NotLoaded(Location),
    /// At this executed location an operation is allowed, with this number of two digits, that is
    /// outside the profile.
    NotInProfile(Location, u8),
    /// An instruction at an executed location alters an executed word that isn't listed, and keeps
    /// these parts of it.
    Alters {
        writer: Location,
        word: Location,
        kept: UnchangedParts,
    },
    /// Executed words times counts, the product of `most + 1` over the marks, is this product,
    /// which is more than 4,000,000; and the notes are short.
    TooLarge(u128),
    /// An edge free of marks closes a loop of such edges, and needs a mark of its own, or shares
    /// that of another one.
    Loop {
        edge: Edge,
        within: Within,
    },
    /// A mark stands on this edge, which the flow graph doesn't have.
    UnusedMark(Edge),
    /// A location that isn't executed has a list.
    UnusedList(Location),
    /// A call is made by this edge, which the flow graph doesn't have, or its exit isn't executed.
    UnusedCall(Edge),
    /// The deck loads words from the first of these locations to the last, all of them neither
    /// executed nor named as data by an instruction that is allowed at an executed location.
    Idle {
        first: Location,
        last: Location,
    },
    /// The loop that an edge of a mark closes stands inside the one that an edge of another mark
    /// closes, and the notes don't say that the one mark stands inside the other. These are the
    /// marks' first edges.
    Inside {
        inner: Edge,
        outer: Edge,
    },
}

impl Finding {
    ghost use Rattle.std.specs.Prelude.{◌≡◌, is_some, option_map};
    ghost use Rattle.std.specs.List.{list_all};
    ghost use Rattle.base_notes.specs.EdgeOf.{edge_of};
    ghost use Rattle.check_findings.specs.Finding as said;
    ghost use Rattle.check_findings.specs.FindingOf.{seen};
    ghost use Rattle.check_findings.specs.Shared as shared;
    ghost use Rattle.check_findings.specs.Shared.{asks_for_mark, asks_to_share};

    /// Whether it asks for a mark of its own.
    pub fn asks_for_mark(&self) -> bool
        ensures { result ≡ asks_for_mark (seen self.now) }
    {
        match self {
            Finding::Loop { within, .. } => !within.is_shared(),
            _ => false,
        }
    }

    /// Whether it asks to share one.
    pub fn asks_to_share(&self) -> bool
        ensures { result ≡ asks_to_share (seen self.now) }
    {
        match self {
            Finding::Loop { within, .. } => within.is_shared(),
            _ => false,
        }
    }

    /// Its edge, if that shares a mark, and goes back to this location.
    pub fn shared_onto(&self, head: Location) -> Option<Edge>
        ensures { option_map edge_of result ≡ shared.shared_onto head.number (seen self.now) }
    {
        match self {
            Finding::Loop { edge, within } => {
                if within.is_shared() && edge.onto.number() == head.number() {
                    return Some(*edge);
                }
                None
            }
            _ => None,
        }
    }

    /// Whether it has such an edge.
    pub fn is_shared_onto(&self, head: Location) -> bool
        ensures { result ≡ is_some (shared.shared_onto head.number (seen self.now)) }
    {
        self.shared_onto(head).is_some()
    }

    /// Whether it may be meant as it is: words that nothing comes to may be kept for later, and a
    /// mark that doesn't say inside which other one it stands may be one whose passes are counted
    /// over the whole run.
    pub fn may_be_meant(&self) -> bool
        ensures { result ≡ said.may_be_meant (seen self.now) }
    {
        matches!(self, Finding::Idle { .. } | Finding::Inside { .. })
    }

    /// Whether all of these may be meant as they are.
    pub fn may_all_be_meant(findings: &[Finding]) -> bool
        ensures { result ≡ list_all (λ finding. said.may_be_meant (seen finding)) findings.now }
    {
        findings.iter().all(|finding| finding.may_be_meant())
    }
}
