//! How many word times a deck can take at most: the analysis of a deck with its timing table and
//! notes.
//!
//! Code, from the bottom up. `numbers` stand for counts of marks, and `keys` are locations with
//! counts, and the one start angle. This is known before the scan: `leap` (a hop with its time and
//! where it goes on), `recent` (the leaps of a long list, made once for each angle of D), `round`
//! (the keys with the same counts) and `instruction_search` (for a key's instruction). This the
//! scan raises: `worst` (an entry of the table), `key_hop` (a hop of a key, by its number) and
//! `latest` (what is kept at a key). `cells` is what is kept at all keys, which the ends of hops
//! raise. `cells/entries` is the table, `cells/limited` the map in which it grows, and
//! `cells/key_hasher` the hasher of that. `scan` has what a scan goes by, and its ledger; in
//! `scan/taking` it takes each key in turn, and each of its hops. `scan/steps` counts ends, on the
//! ledger too, and `scan/steps/end` has their one maker. `scan/found` is what comes of a scan. Of a
//! finished one `trace` makes the walk, followed back, with its passes, as visits of `flow_walks`.
//! `analysing` has `analyse`, `analysis` what that hands out, and `counted_analysis` the same with
//! the ledger. `bounding` has `bound`, which makes no walk: its contract is that no run which keeps
//! to the notes takes longer, and that some walk takes as long.
//!
//! Definitions, in the order to read them, behind `Worst` of `flow_walks`, the longest time of a
//! walk, and `Bounded` of `flow_graph`, that of runs: `Table` is what the table is, with its
//! entries and the one start angle, `Ends` the ends that raise its entries, `Under` how a run
//! arrives under them, `AnalysisOf` what an analysis hands out, `BoundOf` what the bound is, of
//! runs and of walks, and `Counted` how many ends a ledger counts where it is found, as `FoundOf`
//! tells them. The others are how it is found, and a reader of the theorem's clauses needs only
//! `row_in` of `RowOf`. `Digits`, `Keys`, `Scanned` and `TakenOf` are definitions. `EndOf`,
//! `KeysOf`, `LeapOf`, `RecentOf` and `RoundOf` say what the code's types mean by them, and
//! `OfCells` which cells an analysis is made of. `Below` and `InLimited` say which entries the map
//! may have, and `InEntries` how the table that is raised holds what is kept at a key. `InCells`
//! (what is kept at all keys), `SearchOf` and `ScanOf` say what is asked where an end is made.
//!
//! Proofs. Laws of numbers of counts (`DigitsLaws`), of leaps that serve more hops (`Recents`), of
//! keys (`KeyLaws`, `Onward`) and of rounds (`RoundLaws`). Laws of what is held, by entry
//! (`Entering`, `EntryKeys`, `Limits`) and by key (`InCellsLaws`). Laws of the scan, step by step
//! (`Raises`, `Scans`, `GoesOnto`, `GoingOn`, `Sought`, `KeysTaken`, `Halfway`). From the finished
//! scan to walks (`Walked`, `Unpassed`), the bound (`Worsts`), the table (`Rows`, `RowSums`, and
//! `RowsHeld` as it is handed out) with its ends (`EntryEnds`, `EntriesRaised`) and what arrives
//! under it (`Unders`), the number of a walk's hops (`ShortWalks`), and the walk that is handed out
//! (`Traces`). docs/THEOREM.md says what they add up to.
#![tactic(auto)]

mod analysing;
mod analysis;
mod bounding;
mod cells;
mod counted_analysis;
mod instruction_search;
mod key_hop;
mod keys;
mod latest;
mod leap;
mod numbers;
mod recent;
mod round;
mod scan;
mod trace;
mod worst;

pub use analysing::{analyse, analyse_counting};
pub use analysis::Analysis;
pub use bounding::{bound, bound_counting};
pub use counted_analysis::CountedAnalysis;
pub use scan::found::Found;
pub use worst::Worst;
