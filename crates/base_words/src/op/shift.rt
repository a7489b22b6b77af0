ghost use Rattle.std.specs.Prelude.{◌≡◌, ◌≢◌, IfSome, IfNone};

/// How a shifting operation moves the accumulator's digits.
#[derive(Clone, Copy, Debug, PartialEq, Eq)]
pub enum Shift {
    /// 30: to the right.
    Right,
    /// 31: to the right, and rounds.
    Round,
    /// 35: to the left.
    Left,
}

impl Shift {
    ghost use Rattle.base_words.specs.Shift.{number_of};

    /// How the operation of this number shifts; `None` for numbers other than 30, 31 and 35.
    pub fn of(number: u8) -> Option<Shift>
        ensures found { IfSome result (λ shift. number_of shift ≡ number) }
        ensures none { IfNone result ((shift : Shift) → number_of shift ≢ number) }
    {
        match number {
            30 => Some(Shift::Right),
            31 => Some(Shift::Round),
            35 => Some(Shift::Left),
            _ => None,
        }
    }

    /// The number of the operation that shifts so.
    pub fn number(self) -> u8
        ensures { result ≡ number_of self }
    {
        match self {
            Shift::Right => 30,
            Shift::Round => 31,
            Shift::Left => 35,
        }
    }
}
