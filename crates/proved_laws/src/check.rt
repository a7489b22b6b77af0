//! Laws of the definitions of `check_deck`.

ghost use Rattle.std.specs.Prelude.{ℕ, List, Option, IsTrue};
ghost use Rattle.base_words.specs.declared.word.Word.{Word};
ghost use Rattle.base_notes.specs.Allowed.{Notes};
ghost use Rattle.base_notes.specs.Short.{is_short};
ghost use Rattle.flow_graph.specs.declared.refusal.Refusal.{Refusal};
ghost use Rattle.flow_graph.specs.Accepted.{IsAccepted, IsAdmitted};
ghost use Rattle.flow_graph.specs.Executed.{AreAllNodes};
ghost use Rattle.flow_graph.specs.Flow.{AreFound};
ghost use Rattle.flow_graph.specs.Hops.{Node};
ghost use Rattle.flow_acceptance.specs.Acceptance.{IsAdmissionRefusal, IsRefusal};
ghost use Rattle.check_findings.specs.Finding.{Finding};
ghost use Rattle.check_deck.specs.Findings.{AreFindings, AreLooseEnds};
ghost use Rattle.check_deck.specs.First.{IsFoundFirst};

/// Nothing is found but loose ends of the notes exactly where the deck with its notes is accepted,
/// if the notes are short; and where it is admitted, whatever its size, if they aren't.
pub fn none_found_where_accepted()
    ensures accepted { (loads : ℕ → Option Word) (notes : Notes) (start : ℕ) (executed : List ℕ)
        (nodes : List Node) (findings : List Finding) → IsTrue (is_short notes)
        → AreFound loads notes start executed
        → AreAllNodes loads notes start nodes
        → AreFindings loads notes start findings
        → AreLooseEnds loads notes start executed nodes findings
        → IsAccepted loads notes start executed }
    ensures none { (loads : ℕ → Option Word) (notes : Notes) (start : ℕ) (executed : List ℕ)
        (nodes : List Node) (findings : List Finding) → AreAllNodes loads notes start nodes
        → IsAccepted loads notes start executed
        → AreFindings loads notes start findings
        → AreLooseEnds loads notes start executed nodes findings }
    ensures admitted { (loads : ℕ → Option Word) (notes : Notes) (start : ℕ) (executed : List ℕ)
        (nodes : List Node) (findings : List Finding) → AreFound loads notes start executed
        → AreAllNodes loads notes start nodes
        → AreFindings loads notes start findings
        → AreLooseEnds loads notes start executed nodes findings
        → IsAdmitted loads notes start executed }
    ensures none_of_long { (loads : ℕ → Option Word) (notes : Notes) (start : ℕ)
        (executed : List ℕ) (nodes : List Node) (findings : List Finding)
        → ¬ IsTrue (is_short notes)
        → AreAllNodes loads notes start nodes
        → IsAdmitted loads notes start executed
        → AreFindings loads notes start findings
        → AreLooseEnds loads notes start executed nodes findings }
{}

/// What refuses the analysis of a deck is found first, by its numbers; where edges free of marks
/// lead round, the first is an edge that closes a loop, and nothing else is in the way. Of short
/// notes it is the refusal of a bound, and of others that of a ceiling, which comes whatever the
/// size.
pub fn refusal_is_found_first()
    ensures short { (loads : ℕ → Option Word) (notes : Notes) (start : ℕ) (refusal : Refusal)
        (findings : List Finding) → IsTrue (is_short notes) → IsRefusal loads notes start refusal
        → AreFindings loads notes start findings → IsFoundFirst refusal findings }
    ensures long { (loads : ℕ → Option Word) (notes : Notes) (start : ℕ) (refusal : Refusal)
        (findings : List Finding) → ¬ IsTrue (is_short notes)
        → IsAdmissionRefusal loads notes start refusal
        → AreFindings loads notes start findings → IsFoundFirst refusal findings }
{}
