//! The lines of the worst walk of an analysis; where the walk's word times go; its report, card by
//! card; the table of worst times; and how large the analysis is.
//!
//! Code. `walk` has `put_walk`. `table` has the table, sorted; `table/line` puts the line of an
//! entry, and `table/listing` has `put_table`. `waits` has where the word times of a walk go.
//! `waits/adding` goes over the walk once: for each kind of hops it adds up what they have spent,
//! beside the first of them, in a `waits/wait`; and of all hops what they wait. `waits/listing` has
//! `put_waits`. These put a text on a sheet of the caller. `reporting` has `report`, which writes
//! its text: `reporting/tallies` passes once over the walk, with a `reporting/tally` for each
//! card's line, and `reporting/lines` puts each line. `failed_write` says how much of a report has
//! gone out where a write failed. `size` is how large an analysis is, with its lines.
//!
//! Definitions, in the order to read them: `Report` is the report's text, `TableText` and
//! `SizeText` those of table and size; those of the other lines are in `print_hops`. `Written`
//! is what has gone out of a text. `TalliesOf` says what the tallies mean by the report. `WaitsOf`
//! are the waits (`KindRows` their rows, before they are sorted), `TableOf` is the table, and
//! `SizeOf` the size, as the code has them.
//!
//! Proofs. Of the waits: `WaitRows` (rows with a hop more), `WaitsFound` (rows, sorted, are the
//! waits) and `WaitRowLines` (the lines of rows). Of the report: `Tallying` (tallies with a hop
//! more), `Spending` (the times add up) and `Short` (how long it is at most). Of the table:
//! `TableRows` (rows that are sorted are in order).
#![tactic(auto)]

mod failed_write;
mod reporting;
mod size;
mod table;
mod waits;
mod walk;

pub use failed_write::WriteFault;
pub use reporting::report;
pub use size::Size;
pub use table::{Table, put_table};
pub use waits::{Waits, all_waits, put_waits};
pub use walk::put_walk;
