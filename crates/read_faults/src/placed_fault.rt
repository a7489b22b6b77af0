use crate::slip::Slip;

/// A fault of a deck or of inputs, and where it stands.
#[derive(Clone, Copy, Debug, PartialEq, Eq)]
pub struct PlacedFault<F> {
    /// The fault.
    pub fault: F,
    /// The number of its line, from 1; `None` of a deck without a start.
    pub line: Option<u16>,
    /// The number of the earlier line that says what this one says again, if that is its fault.
    pub earlier: Option<u16>,
    /// What was done to the line, where it is no line of a deck or of inputs and that is known.
    pub slip: Option<Slip>,
}
