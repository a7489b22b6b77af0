//! Why a command line has no command.
ghost use Rattle.clap.specs.Values.{kind_of};
ghost use Rattle.program_command.specs.Refusal.{FitsKind};

use clap::error::ErrorKind;
use std::alloc::Global;

/// Why a command line has no command. The texts are for the user.
#[derive(Drop)]
pub enum Refused {
    /// Help was asked for: the text is the help.
    Help(String),
    /// The words are no command: the text says what is wrong, and how a line is written.
    Usage(String),
    /// There is no memory.
    Memory,
}

/// The refusal that clap's error stands for; `Memory` without memory for its text.
pub(crate) fn refused_by(alloc: Global, error: &clap::Error) -> Refused
    ensures { FitsKind (kind_of error.now) result }
{
    let kind = error.kind();
    let Ok(text) = format!(in alloc; "{error}") else {
        return Refused::Memory;
    };
    match kind {
        ErrorKind::OutOfMemory => Refused::Memory,
        ErrorKind::DisplayHelp => Refused::Help(text),
        _ => Refused::Usage(text),
    }
}
