use crate::cycle::Cycle;
use base_words::Location;
use std::alloc::AllocError;
use thiserror::Error;

/// Why a deck with its notes isn't accepted.
#[derive(Debug, Drop, PartialEq, Eq, Error)]
pub enum Refusal {
    /// There is no memory for the analysis, or for what is made of it.
    #[error("there is no memory for the analysis")]
    Memory,
    /// The notes have calls: with them a deck has a ceiling, and no bound.
    #[error("the notes have calls")]
    HasCalls,
    /// At this executed location an operation is allowed, with this number of two digits, that is
    /// outside the profile.
    #[error("operation {1:02} at {0} is outside the profile")]
    NotInProfile(Location, u8),
    /// This executed location is neither loaded nor listed.
    #[error("location {0} is neither loaded nor listed")]
    NotLoaded(Location),
    /// An instruction at the executed location `writer` alters what stands at the executed location
    /// `word`, which isn't listed. The two may be one.
    #[error("{writer} alters {word}, which isn't listed")]
    Alters { writer: Location, word: Location },
    /// Discovery meets more than 65,536 nodes: locations with what is open there at the exits of
    /// calls.
    #[error("there are too many locations with what is open there")]
    TooMany,
    /// Edges free of marks lead round: nothing bounds how often this cycle is gone through.
    #[error("a cycle is free of marks")]
    Unbounded(Cycle),
    /// Executed words times counts is this product, which is more than 4,000,000. (2^127 stands for
    /// any product that is more.)
    #[error("{0} executed words times counts are too many")]
    TooLarge(u128),
}

impl From<AllocError> for Refusal {
    ghost use Rattle.std.specs.Prelude.{◌≡◌};
    ghost use Rattle.flow_graph.specs.declared.refusal.Refusal.TheVariants.{Memory};

    ghost from_gives = { λ _ refusal. refusal ≡ Memory };

    fn from(_: AllocError) -> Refusal {
        Refusal::Memory
    }
}
