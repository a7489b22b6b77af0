//! The table of worst times of an analysis, in order.

mod line;
mod listing;

use bound_scan::{Analysis, Worst};
pub use listing::put_table;
use std::alloc::{AllocError, Global};

/// The table of worst times, by location and, of one location, by the number of the counts.
#[derive(Drop)]
pub struct Table {
    rows: Vec<Worst>,
}

impl Table {
    ghost use Rattle.std.specs.Prelude.{IfOk};
    ghost use Rattle.bound_scan.specs.AnalysisOf.{rows_of};
    ghost use Rattle.print_walks.specs.TableOf.{rows_in};
    ghost use Rattle.print_walks.specs.TableText.{AreInOrder};

    /// The table of an analysis.
    ///
    /// # Errors
    ///
    /// [`AllocError`] where there is no memory.
    pub fn of(alloc: Global, analysis: &Analysis) -> Result<Table, AllocError>
        ensures { IfOk result (λ table. AreInOrder (rows_of analysis.now) (rows_in table)) }
    {
        let mut rows = analysis.table().to_vec(alloc)?;
        rows.sort_unstable_by_key(|row| (row.place.number(), row.counts));
        Ok(Table { rows })
    }
}
