//! Laws of the definitions of `print_walks`.

ghost use Rattle.std.specs.Prelude.{◌≡◌, ℕ, ◌+◌, ◌≤◌, true, List, Some, sum_by};
ghost use Rattle.base_words.specs.declared.op.Op.{Op};
ghost use Rattle.base_words.specs.Op.{op_of};
ghost use Rattle.base_notes.specs.declared.entry.Entry.{Entry};
ghost use Rattle.flow_graph.specs.Walk.{Setting};
ghost use Rattle.flow_walks.specs.Visited.{AreLongest, IsLongest, IsWalkOf, Visited};
ghost use Rattle.print_hops.specs.Waits.{AreDearestFirst, alike, data_at, for_cards, for_data};
ghost use Rattle.print_hops.specs.Waits.{for_instruction, is_alike, next_at, time_alike};
ghost use Rattle.read_decks.specs.declared.deck.Deck.{Deck};
ghost use Rattle.read_decks.specs.InDeck.{cards_in};
ghost use Rattle.bound_scan.specs.declared.analysis.Analysis.{Analysis};
ghost use Rattle.bound_scan.specs.AnalysisOf.{bound_of, visits_of};
ghost use Rattle.print_walks.specs.Report.{is_of_card, is_of_none, time_in, used_after, visits_at};

/// The times of all kinds of a walk add up to the time of the walk, and what the hops of a kind
/// wait is part of their time: so the columns of a line add up. So do those of the line of all
/// hops, where each takes as long as it can.
pub fn waits_add_up()
    ensures times { (g : Setting) (angle used : ℕ) (walk firsts : List Visited)
        → IsWalkOf g angle used walk → AreDearestFirst walk firsts
        → sum_by (time_alike walk) firsts ≡ used }
    ensures columns { (g : Setting) (angle used : ℕ) (walk : List Visited) (one : Visited)
        → IsWalkOf g angle used walk
        → sum_by (for_instruction g.times angle) (alike one walk)
        + sum_by (for_data g.times angle) (alike one walk) ≤ time_alike walk one }
    ensures whole { (g : Setting) (angle used : ℕ) (walk : List Visited)
        → IsWalkOf g angle used walk → AreLongest g angle walk
        → sum_by (for_instruction g.times angle) walk + sum_by (for_data g.times angle) walk
        + sum_by (for_cards g.times) walk ≤ used }
{}

/// A walk has one list of its kinds, the dearest first: what is listed of it is settled.
pub fn waits_are_one()
    ensures { (g : Setting) (angle used : ℕ) (walk firsts others : List Visited)
        → IsWalkOf g angle used walk → AreDearestFirst walk firsts
        → AreDearestFirst walk others → firsts ≡ others }
{}

/// The angle at which D would come just when it is wanted is the same for all hops of a kind: the
/// line of the kind states that of the first.
pub fn data_angles_are_one()
    ensures { (times : Op → Entry) (angle : ℕ) (a b : Visited)
        → is_alike a b ≡ true → data_at times angle a ≡ data_at times angle b }
{}

/// The angle at which the next instruction would come just when it is sought is the same for all
/// hops of a kind, where each takes as long as it can, as those of an analysis's walk do.
pub fn next_angles_are_one()
    ensures { (g : Setting) (angle : ℕ) (a b : Visited) (op : Op)
        → IsLongest g angle a → IsLongest g angle b → is_alike a b ≡ true
        → op_of a.ins.op ≡ Some op → next_at angle a ≡ next_at angle b }
{}

/// The times that a report states of the cards and of the other locations add up to the bound,
/// whatever the deck; and the walk's time, which it states last, is the bound.
pub fn report_adds_up()
    ensures times { (analysis : Analysis) (deck : Deck)
        → sum_by (λ line. time_in (visits_at (is_of_card deck line) (visits_of analysis)))
        (cards_in deck)
        + time_in (visits_at (is_of_none deck) (visits_of analysis)) ≡ bound_of analysis }
    ensures bound { (analysis : Analysis) → used_after 0 (visits_of analysis) ≡ bound_of analysis }
{}
