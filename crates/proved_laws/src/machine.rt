//! Laws of the definitions of `machine_steps`.

ghost use Rattle.std.specs.Prelude.{◌≡◌, ℕ, ◌+◌, ◌↔◌, true, List, length, take, slice_get};
ghost use Rattle.std.specs.Prelude.{Option, Some, Contains};
ghost use Rattle.base_words.specs.declared.op.Op.{Op};
ghost use Rattle.base_words.specs.declared.word.Word.{Word};
ghost use Rattle.base_words.specs.Op.{op_of};
ghost use Rattle.base_notes.specs.declared.entry.Entry.{Entry};
ghost use Rattle.base_notes.specs.declared.notes.mark.Mark.{Mark};
ghost use Rattle.base_notes.specs.Allowed.{Notes, StandInEarlier};
ghost use Rattle.machine_steps.specs.Counts.{is_inside, no_counts};
ghost use Rattle.machine_steps.specs.Ending.{ended_by, clock_by, own_notes};
ghost use Rattle.machine_steps.specs.Keeps.{IsAsDeclared, IsKeptStride, IsKept};
ghost use Rattle.machine_steps.specs.Keeps.{GoesBack, open_behind};
ghost use Rattle.machine_steps.specs.Run.{Stride, IsRun, IsWhole, time_after};
ghost use Rattle.machine_steps.specs.Since.{Edge, counts_along, StandsInside, IsCountSince};
ghost use Rattle.machine_steps.specs.Since.{counts_before};
ghost use Rattle.machine_steps.specs.Step.{State, contents_after, step, instruction_in, clock_of};
ghost use Rattle.machine_steps.specs.Timing.{ready, ended, units_of};
ghost use Rattle.machine_steps.specs.Ways.{ways};
ghost use Rattle.machine_steps.specs.Writes.{writes};

/// A step, whether it goes on or stops, alters no drum word but those that its instruction writes.
pub fn writes_alone()
    ensures { (times : Op → Entry) (s : State) (wait place : ℕ)
        → ¬ Contains (writes (instruction_in s)) place
        → let after = contents_after (step times s wait) in
        slice_get after.drum place ≡ slice_get s.contents.drum place }
{}

/// A step of an operation in the profile ends by one of its instruction's ways under notes with the
/// machine's own switch, and with load cards where the machine's next card is one.
pub fn ends_by_a_way()
    ensures { (times : Op → Entry) (s : State) (wait : ℕ) (op : Op)
        → op_of (instruction_in s).op ≡ Some op
        → Contains (ways (own_notes s) (instruction_in s)) (ended_by (step times s wait)) }
{}

/// A step of an operation in the profile ends at x if by Early, else at e with the units of its
/// work. (Clocks count from a moment of angle 0, in word times.)
pub fn ends_then()
    ensures { (times : Op → Entry) (s : State) (wait : ℕ) (op : Op)
        → op_of (instruction_in s).op ≡ Some op
        → let d = (instruction_in s).d in
        s.first_angle + time_after (step times s wait)
        ≡ clock_by (ended_by (step times s wait)) (ready (times op) s.sought (clock_of s))
        (ended (times op) op d s.sought (units_of op d s.contents) wait (clock_of s)) }
{}

/// A step, whether it goes on or stops, leaves whole contents whole: 2000 words on the drum, twenty
/// digits in the accumulator.
pub fn stays_whole()
    ensures { (times : Op → Entry) (s : State) (wait : ℕ) → IsWhole s.contents
        → IsWhole (contents_after (step times s wait)) }
{}

/// Each prefix of a run is a run.
pub fn prefixes_are_runs()
    ensures { (times : Op → Entry) (s : State) (strides : List Stride) (n : ℕ)
        → IsRun times s strides → IsRun times s (take n strides) }
{}

/// Each prefix of a run that keeps to the notes keeps to them.
pub fn prefixes_are_kept()
    ensures { (loads : ℕ → Option Word) (notes : Notes) (s : State) (strides : List Stride) (n : ℕ)
        → IsKept loads notes s strides → IsKept loads notes s (take n strides) }
{}

/// Of marks that each stand inside of an earlier one, if of any: one is inside of another, as the
/// counts take it, exactly where it stands inside of it, directly or through others.
pub fn inside_is_a_chain()
    ensures { (marks : List Mark) (inner outer : ℕ) → StandInEarlier 0 marks
        → (is_inside marks inner outer ≡ true) ↔ StandsInside marks inner outer }
{}

/// Each mark has a count after edges. Of marks that each stand inside of an earlier one, if of any,
/// it is how often the mark was passed since the last pass of a mark that it stands inside of.
pub fn counts_are_since()
    ensures each { (marks : List Mark) (edges : List Edge)
        → length (counts_along marks (no_counts marks) edges) ≡ length marks }
    ensures since { (marks : List Mark) (edges : List Edge) (place count : ℕ)
        → StandInEarlier 0 marks
        → slice_get (counts_along marks (no_counts marks) edges) place ≡ Some count
        → IsCountSince marks place edges count }
    ensures one { (marks : List Mark) (edges : List Edge) (place count other : ℕ)
        → IsCountSince marks place edges count → IsCountSince marks place edges other
        → count ≡ other }
{}

/// A run keeps to the notes exactly where the programmed switch is as declared, each stride keeps
/// to them with the counts after the edges that the strides before it take, and each goes back as
/// the calls along these edges have it.
pub fn kept_stride_by_stride()
    ensures { (loads : ℕ → Option Word) (notes : Notes) (s : State) (strides : List Stride)
        → IsKept loads notes s strides ↔ (IsAsDeclared notes.programmed s.contents.programmed_stops
        × ((place : ℕ) (stride : Stride) → slice_get strides place ≡ Some stride
        → IsKeptStride loads notes (counts_before notes strides place) stride
        × GoesBack notes (open_behind notes (take place strides)) stride)) }
{}
