//! The rings of the drum.

ghost use Rattle.std.specs.Prelude.{◌<◌, ◌≤◌};

use picture_scene::Tallies;
use std::alloc::{AllocError, Global};

/// The radius of the drum, in tenths of a pixel.
pub const RIM: i64 = 2400;

/// What there is for rings between the rim and the hole.
const ROOM: i64 = 1650;

/// The height of a ring where there are few.
const HIGHEST: i64 = 420;

/// A band in use, drawn as a ring.
#[derive(Clone, Copy)]
pub struct Ring {
    /// The band, 0 to 39.
    pub band: u16,
    /// The ring's radius at its outer side, in tenths of a pixel.
    pub outer: i64,
    /// At its inner side.
    pub inner: i64,
    pub ghost on_drum: { band < 40 },
}

impl Ring {
    /// The number of the band's first location.
    pub fn first(self) -> u16
        ensures { result ≤ 1950 }
    {
        self.band * 50
    }

    /// The radius of its middle.
    pub fn middle(self) -> i64 {
        self.outer.saturating_add(self.inner) / 2
    }

    /// How high it is.
    pub fn height(self) -> i64 {
        self.outer.saturating_sub(self.inner)
    }
}

/// Lays rings into one another, the first at the rim.
fn lay(rings: &mut [Ring]) {
    let count = i64::try_from(rings.len()).unwrap_or(40).max(1);
    let height = (ROOM / count).min(HIGHEST);
    let mut outer = RIM;
    for ring in rings.iter_mut() {
        let next = outer.saturating_sub(height);
        ring.outer = outer;
        ring.inner = next.saturating_add(height / 20);
        outer = next;
    }
}

/// A ring for each band in use, the lowest at the rim.
pub fn rings_of(alloc: Global, tallies: &Tallies) -> Result<Vec<Ring>, AllocError> {
    let mut rings = Vec::new(alloc);
    for band in 0..40u16 {
        if tallies.any_used(band * 50, band * 50 + 49) {
            rings.push(Ring {
                band,
                outer: RIM,
                inner: RIM,
            })?;
        }
    }
    lay(&mut rings);
    Ok(rings)
}

/// The ring of a location on the drum.
pub fn ring_of(rings: &[Ring], number: u16) -> Option<Ring> {
    for ring in rings {
        if ring.band == number / 50 {
            return Some(*ring);
        }
    }
    None
}
