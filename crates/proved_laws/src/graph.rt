//! Laws of the definitions of `print_graphs`.

ghost use Rattle.std.specs.Prelude.{◌≡◌, ◌↔◌, ℕ, List, [], Option, Contains};
ghost use Rattle.base_words.specs.declared.word.Word.{Word};
ghost use Rattle.base_notes.specs.Allowed.{Notes};
ghost use Rattle.flow_graph.specs.Executed.{each_place, AreAllNodes};
ghost use Rattle.flow_graph.specs.Hops as flow;
ghost use Rattle.flow_graph.specs.Hops.{IsEdge};
ghost use Rattle.print_graphs.specs.Graph.{AreNodes, Node, node};

/// A word has an arrow to a location, but for the dotted ones, where a link leads from some node of
/// the flow graph at the word to one at the location.
pub fn arrows_are_links()
    ensures { (loads : ℕ → Option Word) (notes : Notes) (start : ℕ) (nodes : List flow.Node)
        (place next : ℕ) → AreAllNodes loads notes start nodes
        → Contains (node loads notes nodes place).nexts next
        ↔ ((one other : flow.Node) × (one.place ≡ place) × (other.place ≡ next)
        × flow.IsNode loads notes start one × flow.IsLink loads notes one other) }
{}

/// Without calls these arrows of an executed word are its edges.
pub fn arrows_are_edges()
    ensures { (loads : ℕ → Option Word) (notes : Notes) (start : ℕ) (nodes : List flow.Node)
        (place next : ℕ) → AreAllNodes loads notes start nodes → notes.calls ≡ []
        → Contains (each_place nodes) place
        → Contains (node loads notes nodes place).nexts next ↔ IsEdge loads notes place next }
{}

/// A deck has one flow graph under its notes.
pub fn nodes_are_one()
    ensures { (loads : ℕ → Option Word) (notes : Notes) (start : ℕ) (nodes others : List Node)
        → AreNodes loads notes start nodes → AreNodes loads notes start others → nodes ≡ others }
{}
