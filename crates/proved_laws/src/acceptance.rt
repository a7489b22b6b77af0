//! Laws of the definitions of `flow_acceptance`.

ghost use Rattle.std.specs.Prelude.{◌≡◌, ℕ, ◌≤◌, List, length, Option};
ghost use Rattle.base_words.specs.declared.word.Word.{Word};
ghost use Rattle.base_notes.specs.declared.notes.mark.Mark.{Mark};
ghost use Rattle.base_notes.specs.Allowed.{Notes};
ghost use Rattle.flow_graph.specs.declared.refusal.Refusal.{Refusal};
ghost use Rattle.flow_graph.specs.declared.refusal.Refusal.TheVariants.{Memory};
ghost use Rattle.flow_graph.specs.Accepted.{product_of, capped, IsAccepted};
ghost use Rattle.flow_acceptance.specs.Acceptance.{IsRefusal};

/// A deck that is accepted with its notes isn't refused, except where there is no memory.
pub fn accepted_is_not_refused()
    ensures { (loads : ℕ → Option Word) (notes : Notes) (start : ℕ) (executed : List ℕ)
        (refusal : Refusal) → IsAccepted loads notes start executed
        → IsRefusal loads notes start refusal → refusal ≡ Memory }
{}

/// Of eight marks at most, and no more words than the machine has, executed words times counts are
/// told as they are.
pub fn few_marks_are_told()
    ensures { (executed : List ℕ) (marks : List Mark) → length executed ≤ 2004 → length marks ≤ 8
        → capped (product_of executed marks) ≡ product_of executed marks }
{}
