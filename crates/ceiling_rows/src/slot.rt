//! Where an instruction is found: a location, and an angle of the drum.

ghost use Rattle.std.specs.Prelude.{◌≡◌, ◌%◌, ◌<◌};

use base_words::{Location, REVOLUTION};

/// A location with an angle at which its instruction is found, as one number: a drum location is
/// found at one angle alone, each of 8000 to 8003 may be found at fifty.
#[derive(Clone, Copy)]
pub struct Slot {
    pub number: u16,
    pub ghost within: { number < 2200 },
}

impl Slot {
    ghost use Rattle.ceiling_rows.specs.Slot.{slot_of, place_of};

    /// How many there are.
    pub const COUNT: usize = 2200;

    /// The number of the first location beside the drum.
    const BESIDE: u16 = 8000;

    /// How many angles the drum has.
    const ANGLES: u16 = 50;

    /// That of a location whose instruction is found at this clock.
    pub fn of(location: Location, clock: u64) -> Slot
        ensures { result.number ≡ slot_of location.number (clock % 50) }
    {
        let place = location.number;
        if place < Location::DRUM {
            return Slot { number: place };
        }
        let angle = (clock % REVOLUTION) as u16;
        Slot {
            number: Location::DRUM + (place - Slot::BESIDE) * Slot::ANGLES + angle,
        }
    }

    /// The location.
    pub fn location(self) -> Location
        ensures { result.number ≡ place_of self.number }
    {
        if self.number < Location::DRUM {
            return Location {
                number: self.number,
            };
        }
        Location {
            number: Slot::BESIDE + (self.number - Location::DRUM) / Slot::ANGLES,
        }
    }

    /// The angle, 0 to 49.
    pub fn angle(self) -> u64
        ensures told { result ≡ self.number % 50 }
        ensures on_drum { result < 50 }
    {
        u64::from(self.number) % REVOLUTION
    }
}
