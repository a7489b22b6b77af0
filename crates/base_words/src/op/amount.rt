ghost use Rattle.std.specs.Prelude.{◌≡◌, ◌≢◌, IfSome, IfNone};

/// What an operation adds to the accumulator, of the word at D, and to which half.
#[derive(Clone, Copy, Debug, PartialEq, Eq)]
pub enum Amount {
    /// 10, 60: the word, to the upper half.
    Upper,
    /// 11, 61: its negative, to the upper half.
    MinusUpper,
    /// 15, 65: the word, to the lower half.
    Lower,
    /// 16, 66: its negative, to the lower half.
    MinusLower,
    /// 17, 67: its magnitude, to the lower half.
    AbsoluteLower,
    /// 18, 68: the negative of its magnitude, to the lower half.
    MinusAbsoluteLower,
}

impl Amount {
    ghost use Rattle.base_words.specs.Amount.{number_of};

    /// The amount that the operation of this number adds; `None` for numbers other than 10, 11 and
    /// 15 to 18.
    pub fn of(number: u8) -> Option<Amount>
        ensures found { IfSome result (λ amount. number_of amount ≡ number) }
        ensures none { IfNone result ((amount : Amount) → number_of amount ≢ number) }
    {
        match number {
            10 => Some(Amount::Upper),
            11 => Some(Amount::MinusUpper),
            15 => Some(Amount::Lower),
            16 => Some(Amount::MinusLower),
            17 => Some(Amount::AbsoluteLower),
            18 => Some(Amount::MinusAbsoluteLower),
            _ => None,
        }
    }

    /// The number of the operation that adds it without resetting the accumulator first.
    pub fn number(self) -> u8
        ensures { result ≡ number_of self }
    {
        match self {
            Amount::Upper => 10,
            Amount::MinusUpper => 11,
            Amount::Lower => 15,
            Amount::MinusLower => 16,
            Amount::AbsoluteLower => 17,
            Amount::MinusAbsoluteLower => 18,
        }
    }
}
