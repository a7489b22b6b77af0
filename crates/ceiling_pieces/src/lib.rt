//! The search for a walk in rounds that takes as long as can be found. Nothing is promised of what
//! is found, but that the search ends: who takes it looks whether it is a walk.
//!
//! Code, from the bottom up. `passings` lists the edges with marks, in the order of the flow.
//! `free` has the longest ways free of marks from where one begins, and `sources` those from the
//! start and from behind each pass. `walks` holds what walks are put together from, `table` the
//! longest walks from each source to each, and `loops` joins them mark by mark, the inner ones
//! first; `mixed` tries loops among what is inside of another one's mark. `laying` makes pieces of
//! hops, each hop once at each angle, and `building` of whole walks; `numbering` puts them in
//! order.
#![tactic(auto)]

mod building;
mod free;
mod laying;
mod loops;
mod mixed;
mod numbering;
mod passings;
mod sources;
mod table;
mod walks;

use base_notes::{Mark, Times};
use base_words::REVOLUTION;
use building::Building;
use ceiling_rows::SiteRow;
use flow_walks::Piece;
pub use free::Step;
pub use laying::{Laid, Laying};
use loops::Loops;
use passings::Passings;
use sources::Sources;
use std::alloc::{AllocError, Global};
use walks::Walks;

/// The pieces of a walk that takes as long as was found: by the timing table and the marks, the
/// rows of sites, an order of them in which every edge without a mark goes on, and the number of
/// the start's. None, where no walk was found.
pub fn find(
    alloc: Global,
    times: &Times,
    marks: &[Mark],
    rows: &[SiteRow],
    sites: &[usize],
    first: usize,
) -> Result<Vec<Piece>, AllocError> {
    let Some(start) = rows.get(first) else {
        return Ok(Vec::new(alloc));
    };
    // One place behind the start the search for it takes longest.
    let angle = (u64::from(start.location.number) + 1) % REVOLUTION;
    let passings = Passings::of(alloc, rows, sites)?;
    let sources = Sources::of(alloc, rows, sites, first, &passings, marks)?;
    let mut walks = Walks::new(alloc)?;
    match longest(alloc, marks, &passings, &sources, &mut walks)? {
        Some(walk) => build(
            Building::new(alloc, times, rows, &sources, &walks),
            walk,
            angle,
        ),
        None => Ok(Vec::new(alloc)),
    }
}

/// The longest walk that can be put together; none, where no walk was found.
fn longest(
    alloc: Global,
    marks: &[Mark],
    passings: &Passings,
    sources: &Sources,
    walks: &mut Walks,
) -> Result<Option<usize>, AllocError> {
    let loops = Loops::new(alloc, marks, passings, sources)?;
    loops.longest(walks)
}

/// The pieces of a walk that begins at an angle.
fn build(mut building: Building<'_>, walk: usize, angle: u64) -> Result<Vec<Piece>, AllocError> {
    let built = building.build(walk, angle)?;
    building.finish(built)
}
