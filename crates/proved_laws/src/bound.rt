//! Laws of the definitions of `bound_scan`: of the numbers of counts, and of slower timing tables.
//! (That no run takes longer than the bound is the contract of `bound`, in `bound_scan`.)

ghost use Rattle.std.specs.Prelude.{◌≡◌, ◌≤◌, ℕ, List};
ghost use Rattle.base_words.specs.declared.op.Op.{Op};
ghost use Rattle.base_notes.specs.declared.entry.Entry.{Entry};
ghost use Rattle.base_notes.specs.declared.notes.mark.Mark.{Mark};
ghost use Rattle.machine_steps.specs.Counts.{AreWithin};
ghost use Rattle.proved_laws.specs.Slower.{AreNoQuicker, with_times};
ghost use Rattle.flow_graph.specs.Walk.{Setting};
ghost use Rattle.flow_walks.specs.Worst.{IsWorst};
ghost use Rattle.bound_scan.specs.Table.{counts_for, number_of};

use crate::flow::slower_table_slower_walk;

/// Counts that are within their marks' limits are those that their number stands for.
pub fn a_number_stands_for_its_counts()
    ensures { (marks : List Mark) (counts : List ℕ) → AreWithin marks counts
        → counts_for marks (number_of marks counts) ≡ counts }
{}

/// With a timing table that is nowhere quicker the bound is as large or larger.
pub fn slower_table_larger_bound()
    ensures { (g : Setting) (slower : Op → Entry) (bound other : ℕ) → AreNoQuicker slower g.times
        → IsWorst g bound → IsWorst (with_times g slower) other → bound ≤ other }
{
    slower_table_slower_walk();
}
