ghost use Rattle.std.specs.Prelude.{◌≡◌, ◌≢◌, IfSome, IfNone};

/// What a storing operation stores at D.
#[derive(Clone, Copy, Debug, PartialEq, Eq)]
pub enum Store {
    /// 20: the lower half of the accumulator.
    Lower,
    /// 21: the upper half of the accumulator.
    Upper,
    /// 22: the distributor, with the data address of the lower half.
    DataAddress,
    /// 23: the distributor, with the instruction address of the lower half.
    InstructionAddress,
    /// 24: the distributor.
    Distributor,
}

impl Store {
    ghost use Rattle.base_words.specs.Store.{number_of};

    /// What the operation of this number stores; `None` for numbers other than 20 to 24.
    pub fn of(number: u8) -> Option<Store>
        ensures found { IfSome result (λ store. number_of store ≡ number) }
        ensures none { IfNone result ((store : Store) → number_of store ≢ number) }
    {
        match number {
            20 => Some(Store::Lower),
            21 => Some(Store::Upper),
            22 => Some(Store::DataAddress),
            23 => Some(Store::InstructionAddress),
            24 => Some(Store::Distributor),
            _ => None,
        }
    }

    /// The number of the operation that stores it.
    pub fn number(self) -> u8
        ensures { result ≡ number_of self }
    {
        match self {
            Store::Lower => 20,
            Store::Upper => 21,
            Store::DataAddress => 22,
            Store::InstructionAddress => 23,
            Store::Distributor => 24,
        }
    }
}
