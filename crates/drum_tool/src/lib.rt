//! A door: the program over its words, files and devices, and its reports, replays and checks. What
//! stands here is another crate's; its pages say what it promises.
//!
//! - [`run`] and [`run_joined`], of `program_run`; a [`Source`] of texts and the [`Documents`] that
//!   they are, of `read_documents`; the [`Status`] with which it ends, each [`Fault`] and its line,
//!   of `print_lines`.
//! - [`report`] and its [`WriteFault`], of `print_walks`.
//! - [`read_inputs`], [`Inputs`] and an [`InputFault`], of `read_replays`; [`replay`], of
//!   `program_replay`, and the [`Verdict`] that it gives, of `machine_steps`.
//! - [`Findings`] of a deck with each [`Finding`], of `check_deck` and `check_findings`; the faults
//!   of texts, of `read_faults`.
#![tactic(auto)]

pub use check_deck::Findings;
pub use check_findings::{Finding, Lacking, UnchangedParts, Within};
pub use machine_steps::Verdict;
pub use print_lines::{Fault, Part, PartFault, Status, tell_fault, tell_usage};
pub use print_walks::{WriteFault, report};
pub use program_replay::replay;
pub use program_run::{run, run_joined};
pub use read_documents::{Documents, Source};
pub use read_faults::{NamedText, PlacedFault, Slip, deck_faults, fault_lines, input_faults};
pub use read_replays::{InputFault, Inputs, read_inputs};
