//! The search for a key's instruction.

use base_words::Location;

/// The search for the instruction of a key.
#[derive(Clone, Copy)]
pub struct InstructionSearch {
    pub key: usize,
    /// The key's location.
    pub location: Location,
    /// The clock at which it begins: the one that the key keeps. For the contracts alone.
    pub begun: u64,
    /// The clock at which the instruction is found.
    pub found: u64,
}
