//! What has to be known of a walk's pieces before its first line goes out.

ghost use Rattle.std.specs.Prelude.{IfOk};
ghost use Rattle.print_ceilings.specs.PieceIndexOf.{IsPieceIndexOf};

use crate::counts::counts_of;
use crate::ends::{Ends, all_ends};
use ceiling_rounds::InRounds;
use std::alloc::{AllocError, Global};

/// Where each piece's hops begin, how often it is named, and, while the walk is written, its part
/// number.
#[derive(Drop)]
pub struct PieceIndex {
    pub(crate) ends: Vec<Option<Ends>>,
    pub(crate) named: Vec<usize>,
    pub(crate) parts: Vec<Option<usize>>,
}

impl PieceIndex {
    /// That of a walk.
    ///
    /// # Errors
    ///
    /// Where memory is refused.
    pub fn of(alloc: Global, walk: &InRounds) -> Result<PieceIndex, AllocError>
        ensures { IfOk result (IsPieceIndexOf walk.now) }
    {
        let pieces = walk.pieces();
        Ok(PieceIndex {
            ends: all_ends(alloc, pieces)?,
            named: counts_of(alloc, pieces)?,
            parts: vec![in alloc; None; pieces.len()]?,
        })
    }
}
