//! What a drum machine's programs are made of: words and locations, instructions and their
//! operations.
//!
//! Code. `word`, `location`, `parity`, `instruction` and `op` are the types; of the operations
//! `op/` has a file for each family. `numeral` reads numbers of a fixed number of digits.
//!
//! Definitions, in the order to read them: `Word` and `Numeral`, `Location` and `Kind`,
//! `Instruction`; `Op`, with `Amount`, `Branch`, `Position`, `Shift` and `Store` of its families.
//!
//! Proofs. These have laws that other crates use: `OpLaws`; `Numerals`, of numbers that are read;
//! `Same` (values that agree are one).
#![tactic(auto)]

mod instruction;
mod location;
pub mod numeral;
mod op;
mod parity;
mod word;

pub use instruction::Instruction;
pub use location::{Kind, Location, REVOLUTION};
pub use op::amount::Amount;
pub use op::branch::Branch;
pub use op::position::Position;
pub use op::shift::Shift;
pub use op::store::Store;
pub use op::{Op, Operand};
pub use parity::Parity;
pub use word::Word;
