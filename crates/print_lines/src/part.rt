//! The parts that the program is given, and why one can't be had.

/// What the program is given, part by part.
#[derive(Clone, Copy, Debug, PartialEq, Eq)]
pub enum Part {
    /// The joined form, on standard input.
    Joined,
    /// The deck.
    Deck,
    /// The timing table.
    Times,
    /// The notes.
    Notes,
    /// The inputs of a replay.
    Inputs,
}

/// Why the bytes of a part can't be had.
#[derive(Clone, Copy, Debug, PartialEq, Eq)]
pub enum PartFault {
    /// Its file can't be opened.
    Open,
    /// A read of it failed.
    Read,
    /// It is longer than its limit.
    TooLong,
}
