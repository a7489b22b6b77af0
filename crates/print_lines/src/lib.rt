//! The lines that go out of the program: a bound, a verdict, or why there is none, and the status
//! with which the program ends after it. They take no memory.
//!
//! Code. A text goes out by way of a `sheet`: what is put on it is gathered, so that much of it
//! goes out at once. Once a write has failed nothing more goes out, so what puts a text on it
//! needn't ask each time: `finish` says at the end whether all has gone out, and else how much. Who
//! would go on for long asks `is_lost`.
//!
//! `fault` (with the status after each) and `part` are why a command has no answer. `limit` is by
//! what the time of a replay or a trace is limited. `status` is how the program ends. `print` has
//! the parts of a line; `print/` puts each line on a sheet. `print/fault_line` hands a fault to the
//! one of its kind: `print/deck_fault`, `note_fault`, `input_fault`, `part_fault`, and
//! `refusal_line` for what refuses an analysis (faults 31 to 37). `print/mark_name` ends the line
//! of a mark with its name, and `print/verdict_line` has the line of a verdict. `telling` writes a
//! text to the output that it is for, and tells the status then, after a write that failed too.
//!
//! Definitions, in the order to read them: `Gets` is what a device gets of a text. `Stands` is how
//! a text stands that is partly out and partly on a sheet, and what it is to put more behind it.
//! `BoundText`, `VerdictText` and `FaultText` are the lines, and `NameText` is how the line of a
//! mark ends with its name. `Status` is the number of each status, and `FaultStatus` which comes
//! after which fault, and how many failed reads a fault tells. `Reply` is what the program has to
//! say, and that it tells of as many failed reads as there were; `Output` is what goes out of that.
//! `Does` says what the code means by one of these.
//!
//! Proofs, for the crates above. `Passing` has laws of texts that are put one behind the other, and
//! `Lines` of a line for each of many things. `Turning` says what a full sheet does, and `NoLine`
//! which replies are no fault's line.
#![tactic(auto)]

mod fault;
mod limit;
mod part;
mod print;
mod sheet;
mod status;
mod telling;

pub use fault::Fault;
pub use limit::Limit;
pub use part::{Part, PartFault};
pub use print::mark_name::put_name;
pub use print::verdict_line::{put_verdict, spelling_of};
pub use print::{four_digits, put_bound, put_located, put_location, put_named, two_digits};
pub use sheet::Sheet;
pub use status::Status;
pub use telling::{
    complain, end_result, tell_bound, tell_fault, tell_faults, tell_text, tell_usage, tell_verdict,
};
