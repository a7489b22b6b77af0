use base_words::Op;

/// Which words of the drum an operation names as data, by its data address D.
///
/// Source: the IBM 650 Manual of Operation.
#[derive(Clone, Copy)]
pub enum Naming {
    /// None.
    Nothing,
    /// D itself.
    Data,
    /// Words 01 to 10 of D's band, into which a card is read.
    ReadWords,
    /// Words 27 to 36 of D's band, from which a card is punched.
    PunchWords,
}

impl Naming {
    ghost use Rattle.std.specs.Prelude.{◌≡◌};
    ghost use Rattle.base_words.specs.Op.{op_of};
    ghost use Rattle.check_findings.specs.Idle.{naming_of};

    /// Which words the operation of this number names; none for a number outside the profile.
    pub fn of(number: u8) -> Naming
        ensures { result ≡ naming_of (op_of number) }
    {
        let Some(op) = Op::of(number) else {
            return Naming::Nothing;
        };
        match op {
            Op::Add(_)
            | Op::ResetAdd(_)
            | Op::Divide
            | Op::DivideReset
            | Op::Multiply
            | Op::LoadDistributor
            | Op::Store(_) => Naming::Data,
            Op::Read => Naming::ReadWords,
            Op::Punch => Naming::PunchWords,
            Op::NoOperation | Op::Stop | Op::Shift(_) | Op::Branch(_) | Op::BranchOnDigit(_) => {
                Naming::Nothing
            }
        }
    }
}
