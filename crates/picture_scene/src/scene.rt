//! What is shown.

use crate::braces::Braces;
use crate::edges::Edges;
use crate::extent::Extent;
use crate::rows::Rows;
use crate::shares::Shares;
use crate::tallies::Tallies;
use crate::walk::Walk;

/// What is shown of a walk, of whichever kind.
#[derive(Drop)]
pub struct Scene {
    pub walk: Walk,
    /// What the walk and the deck have to do with each location.
    pub tallies: Tallies,
    pub edges: Edges,
    /// Where all word times of the walk go.
    pub shares: Shares,
    /// The revolutions that are shown.
    pub rows: Rows,
    /// How much of the walk these are.
    pub extent: Extent,
    /// The rounds of which one is shown.
    pub braces: Braces,
}
