//! Laws of the definitions of `print_ceilings`.

ghost use Rattle.std.specs.Prelude.{◌≡◌, ℕ, List, Contains};
ghost use Rattle.flow_graph.specs.Walk.{Setting};
ghost use Rattle.flow_walks.specs.Visited.{Visited};
ghost use Rattle.ceiling_rounds.specs.declared.in_rounds.InRounds.{InRounds};
ghost use Rattle.ceiling_rounds.specs.InRounds.{angle_of, pieces_of};
ghost use Rattle.print_ceilings.specs.RoundsText.{tell};
ghost use Rattle.print_ceilings.specs.SpelledOut.{AreSpelledOut};
ghost use Rattle.proved_laws.specs.TellsOf.{IsToldOf};

/// What the lines of a walk in rounds tell is so of the walk, hop by hop, that its pieces spell
/// out: the line of a hop is that of one of the walk's hops, with its begin, its moments and its
/// end; where a line says from when to when a part comes again, hops of the walk end then, or the
/// walk begins; and where one says how long each of some rounds takes and when the last of them
/// ends, hops of the walk end when each of them begins and, so much later, when it ends, or the
/// walk begins.
pub fn lines_tell_the_walk()
    ensures { (g : Setting) (walk : InRounds) (visits : List Visited) (line : List ℕ)
        → AreSpelledOut g walk visits → Contains (tell g.times (pieces_of walk)).0 line
        → IsToldOf g.times (angle_of walk) visits line }
{}

/// The pieces of a walk in rounds spell out one walk: what is said of its hops is settled.
pub fn spelled_out_is_one()
    ensures { (g : Setting) (walk : InRounds) (visits others : List Visited)
        → AreSpelledOut g walk visits → AreSpelledOut g walk others → visits ≡ others }
{}
