//! The program over its words, files and devices: what is read, in which order it is checked, and
//! what goes out.
//!
//! Code, from the top down. `running` has `run` and `run_joined`, the program. `commands` has
//! `run_command`: what each command does with its files. `checking` checks texts: their faults, or
//! what is found of the documents. (What is said of documents where a question is asked of them is
//! `program_answers`' part.) `laws` has laws of the definitions.
//!
//! Definitions, in the order to read them: `Commands` is the reply to a command, by what its files
//! hold, and to a joined form, and `Words` that to the program's words. `SaysCheck` is what a check
//! says of texts, and why nothing. `BoundOfFiles` is the bound of files and of a joined form, for
//! the two laws that say in a sentence what `bound` prints. `DoesCommand` and `Checked` say what
//! the code means by what is done for a command, and by a check.
//!
//! Proofs. `Looking` has what is asked of a source; `Doing`, `OfNoFile`, `Replies`, `Worded` and
//! `BoundsOfFiles` are of the program's replies. `Soundly` shows that texts without faults are
//! refused for lack of memory alone.
#![tactic(auto)]

mod checking;
mod commands;
pub mod laws;
mod running;

pub use base_devices::Reading;
pub use base_notes::{Edge, NoteFault, Notes, Times};
pub use running::{run, run_joined};
