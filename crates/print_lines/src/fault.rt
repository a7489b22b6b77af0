ghost use Rattle.std.specs.Prelude.{◌≡◌};
ghost use Rattle.print_lines.specs.FaultStatus.{status_after};

use crate::part::{Part, PartFault};
use crate::status::Status;
use base_notes::NoteFault;
use base_words::Location;
use flow_graph::Refusal;
use read_decks::DeckFault;
use read_replays::InputFault;
use std::alloc::AllocError;

/// Why a command has no answer.
#[derive(Debug, Drop)]
pub enum Fault {
    /// The joined form lacks the line that ends a part.
    NoPart,
    /// The bytes of this part can't be had, for this reason.
    Part(Part, PartFault),
    /// There is no memory for the bytes of a part, for the command line or for the machine.
    Memory,
    /// The deck is refused.
    Deck(DeckFault),
    /// The timing table is refused.
    Times(NoteFault),
    /// The notes are refused.
    Notes(NoteFault),
    /// The inputs are refused.
    Inputs(InputFault),
    /// The analysis refuses the deck with its notes, or there is no memory for it or for what is
    /// made of it.
    Refused(Refusal),
    /// The inputs give a word to a location that the deck loads too.
    Loaded(Location),
}

impl Fault {
    /// The status with which the program ends after this fault.
    pub fn status(&self) -> Status
        ensures { result ≡ status_after self.now }
    {
        match self {
            Fault::Part(..) | Fault::Memory => Status::Failed,
            Fault::Deck(DeckFault::Read | DeckFault::Memory) => Status::Failed,
            Fault::Times(NoteFault::Memory) | Fault::Notes(NoteFault::Memory) => Status::Failed,
            Fault::Inputs(InputFault::Read | InputFault::Memory) => Status::Failed,
            Fault::Refused(Refusal::Memory) => Status::Failed,
            _ => Status::Refused,
        }
    }
}

impl From<DeckFault> for Fault {
    ghost use Rattle.std.specs.Prelude.{◌≡◌};
    ghost use Rattle.print_lines.specs.declared.fault.Fault.TheVariants.{Deck};

    ghost from_gives = { λ cause fault. fault ≡ Deck cause };

    fn from(cause: DeckFault) -> Fault {
        Fault::Deck(cause)
    }
}

impl From<InputFault> for Fault {
    ghost use Rattle.std.specs.Prelude.{◌≡◌};
    ghost use Rattle.print_lines.specs.declared.fault.Fault.TheVariants.{Inputs};

    ghost from_gives = { λ cause fault. fault ≡ Inputs cause };

    fn from(cause: InputFault) -> Fault {
        Fault::Inputs(cause)
    }
}

impl From<Refusal> for Fault {
    ghost use Rattle.std.specs.Prelude.{◌≡◌};
    ghost use Rattle.print_lines.specs.declared.fault.Fault.TheVariants.{Refused};

    ghost from_gives = { λ cause fault. fault ≡ Refused cause };

    fn from(cause: Refusal) -> Fault {
        Fault::Refused(cause)
    }
}

/// No memory for what is made of an analysis, or of a deck with its notes.
impl From<AllocError> for Fault {
    ghost use Rattle.std.specs.Prelude.{◌≡◌};
    ghost use Rattle.flow_graph.specs.declared.refusal.Refusal.TheVariants.{Memory};
    ghost use Rattle.print_lines.specs.declared.fault.Fault.TheVariants.{Refused};

    ghost from_gives = { λ _ fault. fault ≡ Refused Memory };

    fn from(_: AllocError) -> Fault {
        Fault::Refused(Refusal::Memory)
    }
}
