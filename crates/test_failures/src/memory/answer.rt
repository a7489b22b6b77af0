//! What a call answered.

use crate::page::Page;
use base_devices::WholeError;
use drum_bound::Refusal;
use drum_core::DeckFault;
use drum_machine::Memory;
use drum_times::NoteFault;
use drum_tool::{Fault, InputFault, Status};
use std::alloc::AllocError;
use std::fmt::Debug;

/// An answer. Two that are equal have the same `Debug`.
pub(crate) trait Answer: Debug + Drop {
    /// Whether it says that there is no memory, and nothing else.
    fn lacks_memory(&self) -> bool;
}

impl<T: Debug + Drop, E: Reason> Answer for Result<T, E> {
    fn lacks_memory(&self) -> bool {
        match self {
            Ok(_) => false,
            Err(reason) => reason.is_memory(),
        }
    }
}

/// Why a call has no result.
pub(crate) trait Reason: Debug + Drop {
    /// Whether it is that there is no memory.
    fn is_memory(&self) -> bool;
}

impl Reason for AllocError {
    fn is_memory(&self) -> bool {
        true
    }
}

impl Reason for Memory {
    fn is_memory(&self) -> bool {
        true
    }
}

impl Reason for WholeError {
    fn is_memory(&self) -> bool {
        *self == WholeError::Memory
    }
}

impl Reason for DeckFault {
    fn is_memory(&self) -> bool {
        matches!(self, DeckFault::Memory)
    }
}

impl Reason for NoteFault {
    fn is_memory(&self) -> bool {
        matches!(self, NoteFault::Memory)
    }
}

impl Reason for InputFault {
    fn is_memory(&self) -> bool {
        matches!(self, InputFault::Memory)
    }
}

impl Reason for Refusal {
    fn is_memory(&self) -> bool {
        matches!(self, Refusal::Memory)
    }
}

impl Reason for Fault {
    fn is_memory(&self) -> bool {
        match self {
            Fault::Memory => true,
            Fault::Inputs(fault) => fault.is_memory(),
            Fault::Refused(refusal) => refusal.is_memory(),
            _ => false,
        }
    }
}

/// How the program ended, and what went out.
#[derive(Debug, Drop)]
pub(crate) struct Ran {
    pub(crate) status: Status,
    pub(crate) out: Page,
    pub(crate) err: Page,
}

/// The lines that say that there is no memory.
const WANTS: [&str; 6] = [
    "fault 2 deck memory\n",
    "fault 12 times memory\n",
    "fault 12 notes memory\n",
    "fault 31 memory\n",
    "fault 42 inputs memory\n",
    "fault 53 memory\n",
];

impl Answer for Ran {
    fn lacks_memory(&self) -> bool {
        self.status == Status::Failed
            && self.out.text().is_empty()
            && WANTS.iter().any(|want| self.err.is(want))
    }
}
