//! The locations that hold a word, and what stands at each.

ghost use Rattle.std.specs.Prelude.{◌≡◌, ◌↔◌, IsSome, IfSome};
ghost use Rattle.base_words.specs.Location.{IsLocation};

use std::fmt;

/// The word times of a revolution of the drum.
///
/// Source: the IBM 650 Manual of Operation.
pub const REVOLUTION: u64 = 50;

/// A location that holds a word: 0000 to 1999 on the drum, 8000 to 8003 beside it.
///
/// Source: the IBM 650 Manual of Operation.
#[derive(Clone, Copy, Debug, PartialEq, Eq, PartialOrd, Ord, Hash)]
pub struct Location {
    /// The four digits of its address, as a number.
    pub number: u16,
    pub ghost exists: { IsLocation number },
}

/// What stands at a location.
#[derive(Clone, Copy, Debug, PartialEq, Eq, Hash)]
pub enum Kind {
    /// 0000 to 1999: a word of the drum.
    Drum,
    /// 8000: the storage entry switches of the console.
    Switches,
    /// 8001: the distributor.
    Distributor,
    /// 8002: the lower half of the accumulator.
    Lower,
    /// 8003: the upper half of the accumulator.
    Upper,
}

impl Location {
    ghost use Rattle.base_words.specs.Kind.{kind_of};

    /// How many words the drum has: 0000 to 1999.
    pub const DRUM: u16 = 2000;

    /// One more than the greatest number of a location, which is 8003.
    pub const NUMBERS: usize = 8004;

    /// The location of this number; `None` where the machine has none.
    pub fn new(number: u16) -> Option<Location>
        ensures valid { IsSome result ↔ IsLocation number }
        ensures value { IfSome result (λ location. location.number ≡ number) }
    {
        match number {
            0..2000 | 8000..8004 => Some(Location { number }),
            _ => None,
        }
    }

    /// The four digits of its address, as a number.
    pub fn number(self) -> u16
        ensures { result ≡ self.number }
    {
        self.number
    }

    /// What stands at the location.
    pub fn kind(self) -> Kind
        ensures { result ≡ kind_of self.number }
    {
        match self.number {
            8000 => Kind::Switches,
            8001 => Kind::Distributor,
            8002 => Kind::Lower,
            8003 => Kind::Upper,
            _ => Kind::Drum,
        }
    }
}

impl fmt::Display for Location {
    fn fmt<W: fmt::Write>(&self, f: &mut fmt::Formatter<W>) -> fmt::Result {
        write!(f, "{:04}", self.number)
    }
}
