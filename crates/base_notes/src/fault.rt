use crate::key_path::KeyPath;
use base_words::Location;
use std::alloc::AllocError;
use thiserror::Error;

/// Why bytes aren't a timing table, or aren't notes. A key is named by its path, as `op.19.per`.
#[derive(Debug, Drop, PartialEq, Eq, Error)]
pub enum NoteFault {
    /// `toml` refuses the bytes, or they aren't UTF-8.
    #[error("it is no TOML document")]
    Toml,
    /// There is no memory for it.
    #[error("there is no memory for it")]
    Memory,
    /// The key is required, and isn't there.
    #[error("the key {0} is missing")]
    Missing(KeyPath),
    /// The key is none that may stand there.
    #[error("the key {0} is unknown")]
    Unknown(KeyPath),
    /// The key's value is outside its range.
    #[error("the value of {0} is out of range")]
    Range(KeyPath),
    /// The key's value is of another kind, as a text where a number is to be.
    #[error("the value of {0} is of the wrong kind")]
    Kind(KeyPath),
    /// A mark has the edge of an earlier one: from the one location to the other.
    #[error("two marks stand on the edge from {0} to {1}")]
    TwoMarks(Location, Location),
    /// A list is for the location of an earlier one.
    #[error("two lists are for location {0}")]
    TwoLists(Location),
}

impl From<AllocError> for NoteFault {
    ghost use Rattle.std.specs.Prelude.{◌≡◌};
    ghost use Rattle.base_notes.specs.declared.fault.NoteFault.TheVariants.{Memory};

    ghost from_gives = { λ _ fault. fault ≡ Memory };

    fn from(_: AllocError) -> NoteFault {
        NoteFault::Memory
    }
}
