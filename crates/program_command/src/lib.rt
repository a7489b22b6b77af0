//! The program's command line: words that name a command and its files.
//!
//! Code. `command` is what a line asks for. `entries` is the list of commands, with their files and
//! help. `line` is the whole as clap's command. `found` is the command in clap's matches, and
//! `refused` why a line has none. `read` has `read_words`. `laws` has laws of the definitions.
//!
//! Definitions, in the order to read them: `Line` says what words say, and which are lines as they
//! are meant. `Refusal` says which refusals fit the faults that clap states. `Entry` says that the
//! list of commands is the one that the definitions have.
//!
//! Proofs. `Verbs` has what holds of each command. `Named`, `Subcommand`, `Accepted` and `Lines`
//! follow words that name one, and `Refusals` those that don't. CONTRIBUTING.md says what another
//! command wants.
#![tactic(auto)]

mod command;
mod entries;
mod found;
pub mod laws;
mod line;
mod read;
mod refused;

pub use command::{Command, Files, Question};
pub use read::read_words;
pub use refused::Refused;
