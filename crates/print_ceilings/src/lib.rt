//! What is written of a ceiling with its walk in rounds: mark by mark, the walk itself, part by
//! part, and where its word times go. All is put on a sheet, behind what was put before.
//!
//! Code, from the bottom up. `prices` has `put_ceiling`, with a line for each mark. Of a walk:
//! `hop_line` is the line of a hop, and `part_line` are the others. `progress` is how far a walk is
//! told. `ends` is where the hops of pieces begin, and `counts` how often pieces are named;
//! `piece_index` has both, worked out before the first line is put. `teller` has what is known of a
//! walk, and tells one hop, or that a part comes again; `telling` tells its pieces, by the numbers
//! of those that they name. `rounds` has `put_rounds`. `waits` has where the word times of a walk
//! go: `waits/adding` goes over its pieces and adds up, by kind, what their hops take
//! (`waits/kind_row`, of one hop `waits/alone`), and what all of them wait; `waits/listing` has
//! `put_rounds_waits`.
//!
//! Definitions, in the order to read them: `CeilingText` is the text of a ceiling, mark by mark,
//! and `RoundsText` that of its walk. `SpelledOut` is that walk hop by hop, and `RoundsWaits` the
//! text of where its word times go. The others say what the code means by these: `ProgressOf` (how
//! far a walk is told), `EndsOf`, `CountsOf`, `PieceIndexOf`, `TellerOf`, `RoundsWaitsOf` (the
//! waits, as they are reckoned) with `KindRows` (their rows, before they are sorted).
//!
//! Proofs. `Lists` has what stands where in a list, and `EndLaws` where hops begin. `Passing` has
//! lines that are told one after the other; `Tellings` how pieces are told, and how long they take;
//! `Totals` that the whole takes the walk's time; `Starts` a walk from its beginning. `Laid` puts a
//! walk's hops beside those of its pieces. Of the waits: `RowSteps` (the rows of kinds, with a
//! piece more), `RowRoom` (no sum is too large), `KindSums` (what is added up over a walk's hops is
//! added up over pieces), `PieceAt` (the piece that a loop is at), `FirstComings` and `FirstVisits`
//! (what comes first), and by these `RoundsWaitsFound`; `WholeWaits` (what all hops wait).
#![tactic(auto)]

mod counts;
mod ends;
mod hop_line;
mod part_line;
mod piece_index;
mod prices;
mod progress;
mod rounds;
mod teller;
mod telling;
mod waits;

pub use piece_index::PieceIndex;
pub use prices::put_ceiling;
pub use rounds::put_rounds;
pub use waits::{WaitsInRounds, all_waits_in_rounds, put_rounds_waits};
