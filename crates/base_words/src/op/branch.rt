ghost use Rattle.std.specs.Prelude.{◌≡◌, ◌≢◌, IfSome, IfNone};

/// What a branching operation tests.
#[derive(Clone, Copy, Debug, PartialEq, Eq)]
pub enum Branch {
    /// 44: that the upper half of the accumulator isn't 0.
    UpperNonZero,
    /// 45: that the accumulator isn't 0.
    NonZero,
    /// 46: that the accumulator is minus.
    Minus,
    /// 47: that the overflow latch is on.
    Overflow,
}

impl Branch {
    ghost use Rattle.base_words.specs.Branch.{number_of};

    /// What the operation of this number tests; `None` for numbers other than 44 to 47.
    pub fn of(number: u8) -> Option<Branch>
        ensures found { IfSome result (λ branch. number_of branch ≡ number) }
        ensures none { IfNone result ((branch : Branch) → number_of branch ≢ number) }
    {
        match number {
            44 => Some(Branch::UpperNonZero),
            45 => Some(Branch::NonZero),
            46 => Some(Branch::Minus),
            47 => Some(Branch::Overflow),
            _ => None,
        }
    }

    /// The number of the operation that tests it.
    pub fn number(self) -> u8
        ensures { result ≡ number_of self }
    {
        match self {
            Branch::UpperNonZero => 44,
            Branch::NonZero => 45,
            Branch::Minus => 46,
            Branch::Overflow => 47,
        }
    }
}
