//! Stretches of a walk: what hops come to, from where and when the first begins.

ghost use Rattle.std.specs.Prelude.{◌≡◌, ◌+◌, ◌%◌, ◌<◌, length, IsTrue, Some};

use crate::change::Change;
use crate::opening::Opening;
use base_words::{Location, REVOLUTION};

/// What hops, one after the other, come to.
#[derive(Drop)]
pub struct Stretch {
    /// The location of the first hop.
    pub from: Location,
    /// The drum's angle when the search for it begins.
    pub angle: u64,
    /// Where the last hop leads; `None` where it stops.
    pub onto: Option<Location>,
    /// The word times that they take.
    pub time: u128,
    /// What they do to the count of each mark.
    pub changes: Vec<Change>,
    /// What they ask of what is open at the exit of each call, and how they leave it.
    pub openings: Vec<Opening>,
}

impl Stretch {
    ghost use Rattle.ceiling_rounds.specs.Stretch.{number_of};

    /// Whether the other begins where and when this one ends.
    pub fn leads_to(&self, other: &Stretch) -> bool
        ensures { IsTrue result → (number_of self.now.onto ≡ Some other.now.from.number)
            × ((self.now.angle + self.now.time) % 50 ≡ other.now.angle) }
    {
        let Some(onto) = self.onto else {
            return false;
        };
        let turn = u128::from(REVOLUTION);
        let angle = (u128::from(self.angle) + self.time % turn) % turn;
        onto == other.from && angle == u128::from(other.angle)
    }
}
