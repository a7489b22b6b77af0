//! Laws of the definitions of `program_replay`.

ghost use Rattle.std.specs.Prelude.{◌≡◌, ◌≤◌, ◌↔◌, ℕ, List, IsTrue, length, take};
ghost use Rattle.base_notes.specs.declared.notes.pattern.Pattern.{Pattern};
ghost use Rattle.base_notes.specs.Allowed.{Matches, Notes};
ghost use Rattle.machine_steps.specs.Run.{Stride};
ghost use Rattle.flow_graph.specs.Walk.{Setting};
ghost use Rattle.machine_steps.specs.declared.verdict.Verdict.{Verdict};
ghost use Rattle.machine_steps.specs.Step.{instruction_in};
ghost use Rattle.program_replay.specs.Coverage.{count_after_first, meets, most_passed};
ghost use Rattle.program_replay.specs.Replay.{Given, IsReplayed, IsVerdict};

/// What is given fixes one run: as many of its first strides are the same, and those of fewer are a
/// prefix of those of more.
pub fn one_run()
    ensures same { (g : Setting) (given : Given) (strides others : List Stride)
        → IsReplayed g given strides → IsReplayed g given others → length strides ≡ length others
        → strides ≡ others }
    ensures prefixes { (g : Setting) (given : Given) (strides : List Stride) (n : ℕ)
        → IsReplayed g given strides → IsReplayed g given (take n strides) }
{}

/// The test of a pattern is what it is for a pattern to match, and so a pattern is met where a
/// stride fetches at its list's location an instruction that it matches.
pub fn meets_what_matches()
    ensures { (location : ℕ) (pattern : Pattern) (stride : Stride)
        → IsTrue (meets location pattern stride) ↔ (stride.origin.sought ≡ location)
        × Matches pattern (instruction_in stride.origin) }
{}

/// The most that a mark is passed is a count that it has after some of the strides, and it has no
/// higher one after any.
pub fn most_is_highest()
    ensures reached { (notes : Notes) (strides : List Stride) (place : ℕ) → (n : ℕ)
        × (n ≤ length strides) × (count_after_first notes strides place n
        ≡ most_passed notes strides place) }
    ensures highest { (notes : Notes) (strides : List Stride) (place n : ℕ)
        → count_after_first notes strides place n ≤ most_passed notes strides place }
{}

/// What is given fixes one verdict, and the step with which it comes.
pub fn one_verdict()
    ensures { (g : Setting) (given : Given) (worst step last : ℕ) (verdict other : Verdict)
        → IsVerdict g given worst step verdict → IsVerdict g given worst last other
        → (verdict ≡ other) × (step ≡ last) }
{}
