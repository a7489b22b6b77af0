//! Calls of subroutines, which say where an exit goes back to.

use super::edge::Edge;
use base_words::Location;

/// A call of a subroutine. A step along its edge opens its exit, with its way back, in place of
/// another that is open there. A step from the exit that goes on goes to the way back that is open,
/// and closes it.
#[derive(Clone, Copy, Debug, PartialEq, Eq)]
pub struct Call {
    /// The step that makes the call.
    pub edge: Edge,
    /// Where the subroutine ends: the location that goes back.
    pub exit: Location,
    /// Where it goes back to, from this call.
    pub back: Location,
}

impl Call {
    /// How many calls notes have at most.
    pub const MOST: usize = 64;
}
