//! Laws of the definitions of `ceiling_checked`.

ghost use Rattle.std.specs.Prelude.{ℕ, ◌≤◌, List, Option};
ghost use Rattle.flow_graph.specs.Hops.{Node};
ghost use Rattle.flow_graph.specs.Walk.{Setting, IsProper, Taken, IsWalk, time_of};
ghost use Rattle.ceiling_checked.specs.Affine.{owed_by, Affine};
ghost use Rattle.ceiling_checked.specs.Certificate.{IsCertificate};
ghost use Rattle.ceiling_checked.specs.Rounds.{PayForRounds};
ghost use Rattle.flow_walks.specs.declared.piece.Piece.{Piece};
ghost use Rattle.flow_walks.specs.Worst.{IsWorst};
ghost use Rattle.ceiling_rounds.specs.InRounds.{SpellOut};
ghost use Rattle.ceiling_checked.specs.Right.{IsCeiling};

/// A certificate bounds every walk: none takes more than its total, whatever its form.
pub fn certificate_bounds_walks()
    ensures { (g : Setting) (owed : Node → ℕ → List ℕ → Option ℕ) (total angle : ℕ)
        (hops : List Taken) → IsProper g → IsCertificate g owed total → IsWalk g angle hops
        → time_of hops ≤ total }
{}

/// The prices of a certificate pay for every round of their marks.
pub fn prices_pay_for_rounds()
    ensures { (g : Setting) (prices : List ℕ) (form : Affine) (total : ℕ) → IsProper g
        → IsCertificate g (owed_by g.notes.marks prices form) total → PayForRounds g prices }
{}

/// No walk in rounds takes more than a ceiling.
pub fn walk_is_not_above_the_ceiling()
    ensures { (g : Setting) (prices : List ℕ) (total angle : ℕ) (pieces : List Piece)
        (passes : List ℕ) (reached : ℕ) → IsCeiling g prices total
        → SpellOut g angle pieces passes reached → reached ≤ total }
{}

/// A walk in rounds that takes as long as a ceiling is one of the longest.
pub fn reached_ceiling_is_the_worst_time()
    ensures { (g : Setting) (prices : List ℕ) (total angle : ℕ) (pieces : List Piece)
        (passes : List ℕ) → IsCeiling g prices total → SpellOut g angle pieces passes total
        → IsWorst g total }
{}
