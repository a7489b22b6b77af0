//! The program's command line, as clap reads it.
ghost use Rattle.std.specs.Prelude.{◌≡◌, IfOk, false};
ghost use Rattle.clap.specs.Words.{app_of, rule_of, shape_of};
ghost use Rattle.clap.specs.declared.builder.command.Command.TheViews.{out-Command};
ghost use Rattle.program_command.specs.Entry.{file_of, verb_of};
ghost use Rattle.program_command.specs.Line.{drum650, file_rule, verb_shape};

use crate::entries::{Entry, FileWord, entries};
use clap::{Arg, ArgAction};
use std::alloc::{AllocError, Global};

const ABOUT: &str =
    "Tells how many word times a program for the IBM 650 can take, whose memory is a turning drum";

const AFTER_HELP: &str = "\
The files that commands name:
  DECK    a deck: cards for the drum, one on each line
  TIMES   a timing table: TOML, how many word times each operation takes
  NOTES   notes: TOML, bounds on loops, and what altered words may become
  INPUTS  what a replayed run finds in the machine, and the cards that it reads
Their formats are described in docs/FORMATS.md, and every fault with its cure in docs/FAULTS.md.
The drum turns once in 50 word times.

Example:
  drum650 bound deck.txt times.toml notes.toml

With no words at all, deck, timing table and notes are read from standard input in one text, the
joined form of docs/FORMATS.md, and the bound is printed.

Exit status:
  0  done
  1  the deck, the timing table, the notes or the inputs are refused
  2  the command line is wrong
  3  a file could not be read, memory ran out, or what is printed could not be written
  4  a replay, a trace or a drawn run left the notes

This is version 2026.11; README.md says how to cite it.
";

/// The whole command line.
pub(crate) fn command_line<'a>(alloc: Global) -> Result<clap::Command<'a>, AllocError>
    ensures { IfOk result (λ line. app_of line ≡ drum650) }
{
    let mut line = clap::Command::new(alloc, "drum650")
        .no_binary_name(true)
        .subcommand_required(true)
        .disable_help_subcommand(true)
        .about(ABOUT)
        .after_help(AFTER_HELP)
        .bin_name("drum650")?;
    for entry in entries() {
        line = line.subcommand(subcommand(alloc, *entry)?)?;
    }
    Ok(line)
}

/// The command of an entry, with its files.
fn subcommand<'a>(alloc: Global, entry: Entry) -> Result<clap::Command<'a>, AllocError>
    ensures local { IfOk result (λ command. (out-Command command).has_globals ≡ false) }
    ensures shape { IfOk result (λ command. shape_of command ≡ verb_shape (verb_of entry)) }
{
    let mut command = clap::Command::new(alloc, entry.name)
        .about(entry.about)
        .after_help(entry.example);
    for file in entry.files {
        command = command.arg(argument(alloc, *file))?;
    }
    Ok(command)
}

/// A file, which is found by where it stands.
fn argument<'a>(alloc: Global, file: FileWord) -> Arg<'a>
    ensures local { result.global ≡ false }
    ensures rule { rule_of result ≡ file_rule (file_of file) }
{
    Arg::new(alloc, file.name)
        .required(file.needed)
        .action(ArgAction::Set)
        .help(file.help)
}
