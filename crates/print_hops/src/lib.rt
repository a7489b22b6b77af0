//! The lines of hops and of steps, each with the moments of its instruction, and of a step with
//! what the machine holds after it; and what hops of one kind take and wait.
//!
//! Code, from the bottom up. `timed_hop` is a hop as its line tells it, of a visit or of a step.
//! `moments` is when an instruction is found, is ready and has its data, and `moments_text` the end
//! of a line, which tells them, as they are or later. `hop_text` puts where a hop begins, its
//! instruction, how it ends, and a named number. `registers_text` puts the registers and the latch
//! after a step. `acted` puts what a step did to words of the drum: the word that it wrote, or the
//! card that it read or punched. `line` is what is put on a sheet as a line; `visit_line` and
//! `step_line` put a line each. A `kind` is what hops have in common; `spent` is what one takes and
//! waits, `sums` adds up what those of a kind take, and `waited` what all wait. `kind_line` puts
//! the line of a kind, and `total_line` that of all hops. Numbers may be as large as a u128.
//!
//! Definitions, in the order to read them: `Moments`, `MomentsText`, `WalkText`, `ContentsText`
//! (what a machine holds after a step), `TraceText`, `Waits`, `WaitsText`. The others say what the
//! code means by these. `StepOf` says which stride a step is of. `Pieces` are parts of lines, as
//! the code puts them. `TimedHop` is a hop that is told, and `KindsOf` are kinds of hops and what
//! they take and wait.
//!
//! Proofs. `Lines` puts lines together of their pieces, and `Strides` has what a step's answer
//! tells of its stride. Of kinds: `SameKinds` (`==` of kinds), `KindRows` (where a map has a kind's
//! row, and how rows are sorted), and `Waiting` (how long a hop waits at most). `LaterMoments` has
//! a hop's moments as they are at its angle. `AddingUp`, `WholeFits`, `DataAngles` and `NextAngles`
//! are on what hops take in all, and on the angles of their lines: crates above use them.
#![tactic(auto)]

mod acted;
mod hop_text;
mod kind;
mod kind_line;
mod line;
mod moments;
mod moments_text;
mod registers_text;
mod spent;
mod step_line;
mod sums;
mod timed_hop;
mod total_line;
mod visit_line;
mod waited;

pub use hop_text::put_hop;
pub use kind::Kind;
pub use kind_line::put_kind;
pub use line::Line;
pub use moments::Moments;
pub use moments_text::put_times_later;
pub use spent::Spent;
pub use step_line::put_step;
pub use sums::Sums;
pub use timed_hop::TimedHop;
pub use total_line::put_total;
pub use visit_line::VisitLine;
pub use waited::Waited;
