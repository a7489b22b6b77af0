use base_words::Location;
use std::alloc::AllocError;
use thiserror::Error;

/// Why a text isn't a deck.
#[derive(Clone, Copy, Debug, PartialEq, Eq, Error)]
pub enum DeckFault {
    /// A read of its device failed.
    #[error("the deck can't be read")]
    Read,
    /// There is no memory for it.
    #[error("there is no memory for the deck")]
    Memory,
    /// The line of this number, from 1, is neither a comment nor a start nor a card.
    #[error("line {0} is no card")]
    Card(u16),
    /// The location is given a second word.
    #[error("location {0} is given twice")]
    Twice(Location),
    /// No line says where to start.
    #[error("no line says where to start")]
    NoStart,
    /// The line of this number is a second start.
    #[error("line {0} is a second start")]
    TwoStarts(u16),
    /// The line of this number starts, or puts a word, past the end of the drum.
    #[error("line {0} goes past the drum")]
    PastDrum(u16),
    /// There are more than 4000 lines, or one has more than 100 bytes.
    #[error("the deck is too long")]
    TooLong,
}

impl From<AllocError> for DeckFault {
    ghost use Rattle.std.specs.Prelude.{◌≡◌};
    ghost use Rattle.read_decks.specs.declared.deck.fault.DeckFault.TheVariants.{Memory};

    ghost from_gives = { λ _ fault. fault ≡ Memory };

    fn from(_: AllocError) -> DeckFault {
        DeckFault::Memory
    }
}
