use std::alloc::{AllocError, AllocFailed};
use thiserror::Error;

/// Why a text isn't inputs.
#[derive(Clone, Copy, Debug, PartialEq, Eq, Error)]
pub enum InputFault {
    /// A read of its device failed.
    #[error("the inputs can't be read")]
    Read,
    /// There is no memory for them.
    #[error("there is no memory for the inputs")]
    Memory,
    /// The line of this number, from 1, is no line of inputs.
    #[error("line {0} is no line of inputs")]
    Line(u16),
    /// The line of this number says again what an earlier line says: a setting, or the word of a
    /// location.
    #[error("line {0} says something again")]
    Repeated(u16),
    /// The line of this number gives a word to a location past the end of the drum.
    #[error("line {0} goes past the drum")]
    PastDrum(u16),
    /// There are more than 4000 lines, or one has more than 200 bytes.
    #[error("the inputs are too long")]
    TooLong,
}

impl From<AllocError> for InputFault {
    ghost use Rattle.std.specs.Prelude.{◌≡◌};
    ghost use Rattle.read_replays.specs.declared.fault.InputFault.TheVariants.{Memory};

    ghost from_gives = { λ _ fault. fault ≡ Memory };

    fn from(_: AllocError) -> InputFault {
        InputFault::Memory
    }
}

impl<T: Drop> From<AllocFailed<T>> for InputFault {
    ghost use Rattle.std.specs.Prelude.{◌≡◌};
    ghost use Rattle.read_replays.specs.declared.fault.InputFault.TheVariants.{Memory};

    ghost from_gives = { λ _ fault. fault ≡ Memory };

    fn from(_: AllocFailed<T>) -> InputFault {
        InputFault::Memory
    }
}
