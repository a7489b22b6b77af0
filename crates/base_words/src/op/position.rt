ghost use Rattle.std.specs.Prelude.{◌≡◌, ◌≢◌, IfSome, IfNone};

/// A digit's position in a word: the first is the units, the tenth the leftmost.
#[derive(Clone, Copy, Debug, PartialEq, Eq)]
pub enum Position {
    First,
    Second,
    Third,
    Fourth,
    Fifth,
    Sixth,
    Seventh,
    Eighth,
    Ninth,
    Tenth,
}

impl Position {
    ghost use Rattle.base_words.specs.Position.{number_of};

    /// The position that the operation of this number tests; `None` for numbers other than 90 to
    /// 99.
    pub fn of(number: u8) -> Option<Position>
        ensures found { IfSome result (λ position. number_of position ≡ number) }
        ensures none { IfNone result ((position : Position) → number_of position ≢ number) }
    {
        match number {
            91 => Some(Position::First),
            92 => Some(Position::Second),
            93 => Some(Position::Third),
            94 => Some(Position::Fourth),
            95 => Some(Position::Fifth),
            96 => Some(Position::Sixth),
            97 => Some(Position::Seventh),
            98 => Some(Position::Eighth),
            99 => Some(Position::Ninth),
            90 => Some(Position::Tenth),
            _ => None,
        }
    }

    /// The number of the operation that tests it: 91 to 99, and 90 for the tenth.
    pub fn number(self) -> u8
        ensures { result ≡ number_of self }
    {
        match self {
            Position::First => 91,
            Position::Second => 92,
            Position::Third => 93,
            Position::Fourth => 94,
            Position::Fifth => 95,
            Position::Sixth => 96,
            Position::Seventh => 97,
            Position::Eighth => 98,
            Position::Ninth => 99,
            Position::Tenth => 90,
        }
    }
}
