//! Every fault of what a drum machine is given, where a reader stops at the first: for a command
//! that tells all of them at once.
//!
//! Code, from the bottom up. `first_past` is the first line of a text that is past a limit. `slip`
//! is what was done to a line that is no line of a deck or of inputs, by the tests of `slip_tests`.
//! `placed_fault` is a fault of a line, with the earlier line that it points at. `deck_so_far` is
//! what the lines of a deck so far load, and `inputs_so_far` the lines of inputs so far, each with
//! the fault of the next one. `all_faults` goes through the lines of either. `faults_of_deck` has
//! all faults of a deck's text, in the order of its lines, and `faults_of_inputs` those of a text
//! of inputs. `loaded` are the locations that both a deck and inputs load. `alike` are faults to
//! whose lines the same was done. `named_text` is a text with its file's name, and `fault_text` a
//! text in memory, with what is said of a fault behind it. `lines_of_faults` has the lines of all
//! faults of a deck, a timing table, notes and inputs. `laws` has a law, on texts of which nothing
//! is said.
//!
//! Definitions, in the order to read them: `Slip` (with `SlipTests`) says what was done to a line,
//! `ByLine` where a fault stands, `DeckFaults` which those of a deck's text,
//! `InputFaults` those of inputs, `Alike` which of them are alike, and `FaultLines` the lines of
//! all faults. `SoFar` and `NamedTexts` say what the code's types mean by these.
//!
//! Proofs. They follow the faults as they are found (`Told`), and show that the first of all faults
//! is the reader's (`Begin`).
#![tactic(auto)]

mod alike;
mod all_faults;
mod deck_so_far;
mod fault_text;
mod faults_of_deck;
mod faults_of_inputs;
mod first_past;
mod inputs_so_far;
pub mod laws;
mod lines_of_faults;
mod loaded;
mod named_text;
mod placed_fault;
mod slip;
mod slip_tests;

pub use faults_of_deck::deck_faults;
pub use faults_of_inputs::input_faults;
pub use lines_of_faults::fault_lines;
pub use named_text::NamedText;
pub use placed_fault::PlacedFault;
pub use slip::Slip;
