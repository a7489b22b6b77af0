//! How much of the walk is drawn.

use crate::walk::Walk;

/// How much of the walk is drawn.
#[derive(Clone, Copy)]
pub enum Extent {
    /// All of it.
    All,
    /// So many revolutions, the first ones.
    First(u128),
    /// So many revolutions, from one on in which the walk comes to where it spends most. It counts
    /// from 1.
    From(u128, usize),
    /// So many revolutions, which need not be in a row, or only parts of them.
    Some(usize),
}

impl Extent {
    /// Where the walk is drawn from its beginning to the end of a revolution.
    pub fn until(walk: Walk, last: u128) -> Extent {
        let shown = last.saturating_add(1);
        if shown.saturating_mul(50) >= walk.time.saturating_add(u128::from(walk.angle)) {
            Extent::All
        } else {
            Extent::First(shown)
        }
    }
}
