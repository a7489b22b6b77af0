//! Laws of the definitions of `flow_loops`.

ghost use Rattle.std.specs.Prelude.{◌∷◌, ℕ, List, Option};
ghost use Rattle.base_words.specs.declared.word.Word.{Word};
ghost use Rattle.base_notes.specs.Allowed.{Notes};
ghost use Rattle.base_graphs.specs.Graph.{IsClosed};
ghost use Rattle.flow_graph.specs.Accepted.{IsFreeLink};
ghost use Rattle.flow_graph.specs.Hops.{IsNode, Node};
ghost use Rattle.flow_loops.specs.Loops.{AreClosing};
ghost use Rattle.proved_laws.specs.Marked.{AreMarked};

/// Marks on the edges that close the loops are enough: under notes that have a mark on each of
/// them, and say else what these do, nothing closed is free of marks.
pub fn marks_are_enough()
    ensures { (loads : ℕ → Option Word) (notes : Notes) (start : ℕ) (edges : List (ℕ × ℕ))
        (marked : Notes) → AreClosing loads notes start edges → AreMarked notes edges marked
        → (first : Node) (others : List Node) → IsNode loads marked start first
        → ¬ IsClosed (IsFreeLink loads marked) (first ∷ others) }
{}
