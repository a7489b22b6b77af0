//! The command that clap's matches stand for.
ghost use Rattle.std.specs.Prelude.{◌≡◌, ◌∷◌, ◌++◌, [], true, false, Some, is_some, map, codes};
ghost use Rattle.std.specs.Prelude.{option_map};
ghost use Rattle.std.specs.List.{list_all};
ghost use Rattle.std.specs.Option.{option_map_or};
ghost use Rattle.clap.specs.Words.{first_of, found_of, rows_of, subcommand_rows_of};
ghost use Rattle.program_command.specs.Line.{common, common_files, is_there, is_whole};
ghost use Rattle.program_command.specs.Line.{said_by, said_in};

use crate::command::{Command, Files, Question};
use crate::entries::{DECK, FileWord, INPUTS, NOTES, TIMES};
use clap::ArgMatches;

/// The command that was found, with all of its files.
pub(crate) fn command_in<'a>(matches: &ArgMatches<'a>) -> Command<'a>
    requires { option_map_or is_whole (subcommand_rows_of matches.now) false ≡ true }
    ensures { option_map said_in (subcommand_rows_of matches.now) ≡ Some (said_by result) }
{
    let Some((name, found)) = matches.subcommand() else {
        unreachable!()
    };
    command_of(name, found)
}

/// The command of this name, with the files that were found.
fn command_of<'a>(name: &str, found: &ArgMatches<'a>) -> Command<'a>
    requires { is_whole (name.now, rows_of (found_of found.now)) ≡ true }
    ensures { said_in (name.now, rows_of (found_of found.now)) ≡ said_by result }
{
    match name {
        "bound" => Command::Answer(Question::Bound, files_in(found)),
        "check" => Command::Check(files_in(found), file_if_named(found, INPUTS)),
        "report" => Command::Answer(Question::Report, files_in(found)),
        "walk" => Command::Answer(Question::Walk, files_in(found)),
        "waits" => Command::Answer(Question::Waits, files_in(found)),
        "table" => Command::Answer(Question::Table, files_in(found)),
        "size" => Command::Answer(Question::Size, files_in(found)),
        "graph" => Command::Answer(Question::Graph, files_in(found)),
        "outline" => Command::Answer(Question::Outline, files_in(found)),
        "draw" => draw_of(files_in(found), file_if_named(found, INPUTS)),
        "ceiling" => Command::Answer(Question::Ceiling, files_in(found)),
        "replay" => Command::Replay(files_in(found), file_in(found, INPUTS)),
        "trace" => Command::Trace(files_in(found), file_in(found, INPUTS)),
        _ => unreachable!(),
    }
}

/// What is drawn of files: the run of inputs, where these are named.
fn draw_of<'a>(files: Files<'a>, inputs: Option<&'a str>) -> Command<'a>
    ensures { said_by result
        ≡ (
          codes "draw",
          map Some (common files.entry)
              ++ option_map (λ name. name.now) inputs.entry ∷ [],
        ) }
{
    match inputs {
        Some(inputs) => Command::DrawRun(files, inputs),
        None => Command::Answer(Question::Draw, files),
    }
}

/// The files that every command works on.
fn files_in<'a>(found: &ArgMatches<'a>) -> Files<'a>
    requires { list_all (is_there (rows_of (found_of found.now))) common_files ≡ true }
    ensures { map (λ file. first_of file.name (rows_of (found_of found.now))) common_files
        ≡ map Some (common result) }
{
    Files {
        deck: file_in(found, DECK),
        times: file_in(found, TIMES),
        notes: file_in(found, NOTES),
    }
}

/// What was found for the file, if anything was.
fn file_if_named<'a>(found: &ArgMatches<'a>, file: FileWord) -> Option<&'a str>
    ensures { first_of file.name.now (rows_of (found_of found.now))
        ≡ option_map (λ text. text.now) result }
{
    found.get_str(file.name)
}

/// What was found for the file.
fn file_in<'a>(found: &ArgMatches<'a>, file: FileWord) -> &'a str
    requires { is_some (first_of file.name.now (rows_of (found_of found.now))) ≡ true }
    ensures { first_of file.name.now (rows_of (found_of found.now)) ≡ Some result.now }
{
    let Some(text) = file_if_named(found, file) else {
        unreachable!()
    };
    text
}
