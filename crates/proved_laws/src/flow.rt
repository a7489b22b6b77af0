//! Laws of the definitions of `flow_graph`.

ghost use Rattle.std.specs.Prelude.{◌≡◌, ℕ, ◌+◌, ◌%◌, ◌<◌, ◌≤◌, List, length, Option, Some};
ghost use Rattle.std.specs.Prelude.{Contains};
ghost use Rattle.base_words.specs.declared.op.Op.{Op};
ghost use Rattle.base_words.specs.declared.word.Word.{Word};
ghost use Rattle.base_notes.specs.declared.notes.mark.Mark.{Mark};
ghost use Rattle.base_notes.specs.Allowed.{Notes, StandInEarlier};
ghost use Rattle.base_notes.specs.Marks.{mark_on};
ghost use Rattle.base_notes.specs.declared.entry.Entry.{Entry};
ghost use Rattle.machine_rotation.specs.Available.{is_available};
ghost use Rattle.machine_rotation.specs.Moment.{first};
ghost use Rattle.machine_steps.specs.Contents.{Contents};
ghost use Rattle.machine_steps.specs.Counts.{after_pass, AreWithin};
ghost use Rattle.machine_steps.specs.Keeps.{IsKept};
ghost use Rattle.machine_steps.specs.Since.{passes_of};
ghost use Rattle.machine_steps.specs.Run.{Stride, IsRun, IsFirstState, used_from};
ghost use Rattle.machine_steps.specs.Step.{State};
ghost use Rattle.machine_steps.specs.Timing.{units_of, IsWait};
ghost use Rattle.machine_steps.specs.Ways.{Way};
ghost use Rattle.base_graphs.specs.Graph.{AreDifferent};
ghost use Rattle.flow_graph.specs.Accepted.{IsAdmitted, IsFixed};
ghost use Rattle.flow_graph.specs.Executed.{IsOrder};
ghost use Rattle.flow_graph.specs.Hops.{IsExecuted};
ghost use Rattle.flow_graph.specs.MostPasses.{most_passes};
ghost use Rattle.flow_graph.specs.Passes.{leading};
ghost use Rattle.flow_graph.specs.RunHops.{hops_taken};
ghost use Rattle.proved_laws.specs.Slower.{AreNoQuicker, with_times};
ghost use Rattle.flow_graph.specs.Walk.{Setting, IsProper, Taken, MayHaveUnits, IsWalk, end_by};
ghost use Rattle.flow_graph.specs.Walk.{edges_taken, time_of};
ghost use Rattle.proved_laws.specs.WalkTime.{AreAlike};

/// The order of discovery has each executed location once, and nothing else.
pub fn order_is_executed()
    ensures all { (loads : ℕ → Option Word) (notes : Notes) (start place : ℕ) (order : List ℕ)
        → IsOrder loads notes start order
        → IsExecuted loads notes start place → Contains order place }
    ensures only { (loads : ℕ → Option Word) (notes : Notes) (start place : ℕ) (order : List ℕ)
        → IsOrder loads notes start order
        → Contains order place → IsExecuted loads notes start place }
    ensures once { (loads : ℕ → Option Word) (notes : Notes) (start : ℕ) (order : List ℕ)
        → IsOrder loads notes start order → AreDifferent order }
{}

/// A pass raises the counts, read as one number with the first mark's leading.
pub fn passes_raise()
    ensures { (marks : List Mark) (counts : List ℕ) (from onto k : ℕ) → StandInEarlier 0 marks
        → AreWithin marks counts → mark_on marks from onto ≡ Some k
        → leading marks counts < leading marks (after_pass marks from onto counts) }
{}

/// The start angle of a walk, its hops, its units and its waits determine its time.
pub fn one_time()
    ensures { (g : Setting) (angle : ℕ) (hops others : List Taken) → AreAlike hops others
        → IsWalk g angle hops → IsWalk g angle others
        → time_of hops ≡ time_of others }
{}

/// The hops that a run takes, where it keeps to the notes of an admitted deck, are a walk from the
/// same start angle, and its time is what the run has used. (So the empty run is the empty walk.)
pub fn kept_run_is_a_walk()
    ensures { (g : Setting) (executed : List ℕ) (s : State) (strides : List Stride) → IsProper g
        → IsAdmitted g.loads g.notes g.start executed
        → IsFirstState g.loads (IsFixed g.loads g.notes g.start) g.start s → IsRun g.times s strides
        → IsKept g.loads g.notes s strides
        → IsWalk g s.first_angle (hops_taken strides)
        × (time_of (hops_taken strides) ≡ used_from 0 strides) }
{}

/// The units of an operation's work, whatever the machine holds, are units that a hop may have.
pub fn units_in_range()
    ensures { (op : Op) (d : ℕ) (c : Contents) → MayHaveUnits op d (units_of op d c) }
{}

/// A hop that begins later never ends earlier, with the same units and the same wait.
pub fn later_start_no_earlier_end()
    ensures { (entry : Entry) (op : Op) (d place units wait : ℕ) (way : Way) (earlier later : ℕ)
        → MayHaveUnits op d units → IsWait op entry wait → earlier ≤ later
        → end_by way entry op d place units wait earlier
        ≤ end_by way entry op d place units wait later }
{}

/// For each walk there is one from the same start angle that, with a timing table that is nowhere
/// quicker, takes as long or longer.
pub fn slower_table_slower_walk()
    ensures { (g : Setting) (slower : Op → Entry) (angle : ℕ) (hops : List Taken)
        → AreNoQuicker slower g.times → IsWalk g angle hops
        → (others : List Taken) × IsWalk (with_times g slower) angle others
        × (time_of hops ≤ time_of others) }
{}

/// From every start angle the first fetch falls at one angle, that of the start's location, at most
/// 49 word times away.
pub fn first_fetch_at_one_angle()
    ensures angle { (start clock : ℕ) → start < 2000
        → first (is_available start) clock % 50 ≡ start % 50 }
    ensures near { (start clock : ℕ) → first (is_available start) clock ≤ clock + 49 }
{}

/// A walk passes a mark no more often than the product of the mark's most and, of each mark that it
/// stands inside of, directly or through others, one more than its most.
pub fn passes_are_few()
    ensures { (g : Setting) (angle k : ℕ) (hops : List Taken) → StandInEarlier 0 g.notes.marks
        → k < length g.notes.marks → IsWalk g angle hops
        → passes_of g.notes.marks k (edges_taken hops) ≤ most_passes g.notes.marks k }
{}
