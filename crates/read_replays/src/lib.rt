//! The inputs of a replay: a text that states what a machine is set up with and fed with, read, or
//! refused for its first fault.
//!
//! Code, from the bottom up. `key` is what stands behind a line's first word, `digits` has the
//! numbers that a line is written with, and `accumulator` the accumulator's. `setting` is what a
//! line states once at most, and `line` reads one line. `settings` and `drum_words` keep what was
//! stated. `stating` is inputs of which some lines were taken, by `Reading` of `read_decks`. `read`
//! has `read_inputs`; `inputs` is what it gives, and `fault` why a text is no inputs.
//!
//! Definitions, in the order to read them: `InputsText` says which texts are inputs and why others
//! are refused (over the first fault of `read_decks`'s lines), and `Inputs` what inputs state, as
//! they are held. `Said` and `InputsOfLines` are what the code's other types mean by these.
//!
//! Proofs. `Progress` is on what comes of all lines. `Refusals` shows that a text has
//! one fault, `Repeated` when a line says again what others say, and `Sounds` what one sound line
//! more is; `read_faults` uses these too.
#![tactic(auto)]

mod accumulator;
mod digits;
mod drum_words;
mod fault;
mod inputs;
mod key;
mod line;
mod read;
mod setting;
mod settings;
mod stating;

pub use fault::InputFault;
pub use inputs::Inputs;
pub use line::Line as InputLine;
pub use read::{inputs_of, read_inputs};
