//! Reading a command line.
ghost use Rattle.std.specs.Prelude.{◌≡◌, true, Some, [], All, IfErr, IfOk, List, MatchResult};
ghost use Rattle.clap.specs.Walk.{texts};
ghost use Rattle.clap.specs.Words.{Text, fault_of, takes};
ghost use Rattle.program_command.specs.Line.{IsLineOf, drum650, said_by, said_by_words, said_of};
ghost use Rattle.program_command.specs.Line.{verbs};
ghost use Rattle.program_command.specs.Refusal.{FitsAmong};

use crate::command::Command;
use crate::found::command_in;
use crate::line::command_line;
use crate::refused::{Refused, refused_by};
use std::alloc::Global;

/// The command that the words after the program's name ask for.
///
/// # Errors
///
/// `Help` where they ask for help, `Usage` where they are no command line, `Memory` where there is
/// no memory.
pub fn read_words<'a>(alloc: Global, words: &'a [&'a str]) -> Result<Command<'a>, Refused>
    // A command's name with its files, none of which begins with a hyphen, is that command with
    // these files, unless there is no memory.
    ensures lines { (files : List Text) → All (λ verb. IsLineOf verb files (texts words.entry.now)
        → MatchResult result (λ command. said_by command ≡ (verb.name, said_of verb.files files))
        (λ refused. refused ≡ Refused.Memory)) verbs }
    // Whatever the words, the command is the one that clap finds in them, with the files that it
    // finds.
    ensures told { IfOk result (λ command.
        said_by_words (texts words.entry.now) ≡ Some (said_by command)) }
    // It comes only of words without a fault.
    ensures faultless { IfOk result (λ _. fault_of drum650 (texts words.entry.now) ≡ []) }
    // Words that are a command line are refused only where there is no memory.
    ensures taken { IfErr result (λ refused.
        takes drum650 (texts words.entry.now) ≡ true → refused ≡ Refused.Memory) }
    // Help and Usage each answer a fault that clap states of these words.
    ensures kinds { IfErr result (FitsAmong (fault_of drum650 (texts words.entry.now))) }
{
    let Ok(line) = command_line(alloc) else {
        return Err(Refused::Memory);
    };
    match line.try_get_matches_from(words) {
        Ok(matches) => Ok(command_in(&matches)),
        Err(error) => Err(refused_by(alloc, &error)),
    }
}
