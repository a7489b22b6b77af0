//! What each command does, with files.

ghost use Rattle.std.specs.Prelude.{◌≡◌, ◌+◌, ◌^◌, ◌≤◌, ℕ, IfErr};
ghost use Rattle.program_command.specs.declared.command.Command.TheVariants as commands;
ghost use Rattle.print_lines.specs.FaultStatus.{failed_reads};
ghost use Rattle.read_documents.specs.Asked.{AsksFor, Looks, all_named_in, fault_in, files_sought};
ghost use Rattle.read_documents.specs.Asked.{name_in, named_in, named_with};
ghost use Rattle.read_documents.specs.Files.{AreTold, Contents};
ghost use Rattle.base_devices.specs.Device.{Device};
ghost use Rattle.print_lines.specs.Output.{Tells};
ghost use Rattle.print_lines.specs.Reply.{Reply, TellsOfReads};
ghost use Rattle.program_run.specs.Commands as said;
ghost use Rattle.program_run.specs.Commands.{AnswersCommand};
ghost use Rattle.program_run.specs.DoesCommand.{DoesCommand};
ghost use Rattle.program_run.specs.Words.{LooksAsTold};

use crate::checking::{Checked, check, named_inputs, tell_findings};
use base_devices::Output;
use print_lines::{Fault, Limit, Status, complain, tell_faults, tell_verdict};
use program_answers::answer_question;
use program_command::{Command, Files, Question};
use program_replay::{begin_trace, picture_run, replay, tell_picture, tell_trace};
use read_documents::{Source, documents_in, documents_with_inputs, texts_with_inputs};
use read_toml::NotesRead;
use std::alloc::Global;

/// Which notes are read for a question: long ones, unless it is one of the bound, of a report, of
/// the table or of the size.
fn read_for(question: Question) -> NotesRead
    ensures { result ≡ said.read_for question }
{
    match question {
        Question::Bound | Question::Report | Question::Table | Question::Size => NotesRead::Short,
        _ => NotesRead::Long,
    }
}

/// Answers a question about the documents in files.
fn answer_of_files<S: Source, O: Output>(
    alloc: Global,
    question: Question,
    source: &mut S,
    files: Files<'_>,
    out: &mut O,
) -> Result<Status, Fault>
    requires { S.failed source.old ≤ 2 ^ 61 }
    ensures does { (err : Device)
        → DoesCommand (commands.Answer question files.entry) (S.files source.old)
        (O.device out.old) (O.device out.new) err err result }
    ensures spared { IfErr result (λ _. out.new ≡ out.old) }
    ensures counted { S.failed source.new ≡ S.failed source.old + failed_reads result }
    ensures asked { AsksFor (S.asked source.old) (S.asked source.new)
        (Looks (named_in files.entry) (fault_in result)) }
{
    let documents = documents_in(alloc, source, files, read_for(question))?;
    answer_question(alloc, question, &documents, out)
}

/// Checks the texts in files.
fn check_files<S: Source, O: Output, E: Output>(
    alloc: Global,
    source: &mut S,
    files: Files<'_>,
    name: Option<&str>,
    out: &mut O,
    err: &mut E,
) -> Result<Status, Fault>
    requires { S.failed source.old ≤ 2 ^ 61 }
    ensures does { DoesCommand (commands.Check files.entry name.entry) (S.files source.old)
        (O.device out.old) (O.device out.new)
        (E.device err.old) (E.device err.new) result }
    ensures spared { IfErr result (λ _. (out.new ≡ out.old) × (err.new ≡ err.old)) }
    ensures counted { S.failed source.new ≡ S.failed source.old + failed_reads result }
    ensures asked { AsksFor (S.asked source.old) (S.asked source.new)
        (Looks (named_with files.entry (name_in name.entry)) (fault_in result)) }
{
    let (texts, inputs) = texts_with_inputs(alloc, source, files, name)?;
    let checked = check(alloc, files, &texts, named_inputs(name, &inputs))?;
    match checked {
        Checked::Faulty(lines) => Ok(tell_faults(err, &lines)),
        Checked::Sound(findings, lacking) => Ok(tell_findings(out, &findings, &lacking)),
    }
}

/// Replays the run of the documents and inputs in files.
fn replay_files<S: Source, O: Output>(
    alloc: Global,
    source: &mut S,
    files: Files<'_>,
    inputs: &str,
    out: &mut O,
) -> Result<Status, Fault>
    requires { S.failed source.old ≤ 2 ^ 61 }
    ensures does { (err : Device)
        → DoesCommand (commands.Replay files.entry inputs.entry) (S.files source.old)
        (O.device out.old) (O.device out.new) err err result }
    ensures spared { IfErr result (λ _. out.new ≡ out.old) }
    ensures counted { S.failed source.new ≡ S.failed source.old + failed_reads result }
    ensures asked { AsksFor (S.asked source.old) (S.asked source.new)
        (Looks (all_named_in files.entry inputs.entry.now) (fault_in result)) }
{
    let (documents, inputs) = documents_with_inputs(
        alloc,
        source,
        files,
        inputs,
        NotesRead::Short,
    )?;
    let verdict = replay(
        alloc,
        &documents.deck,
        &documents.times,
        &documents.notes,
        inputs,
    )?;
    Ok(tell_verdict(out, Limit::Bound, &verdict))
}

/// Traces the run of the documents and inputs in files.
fn trace_files<S: Source, O: Output>(
    alloc: Global,
    source: &mut S,
    files: Files<'_>,
    inputs: &str,
    out: &mut O,
) -> Result<Status, Fault>
    requires { S.failed source.old ≤ 2 ^ 61 }
    ensures does { (err : Device)
        → DoesCommand (commands.Trace files.entry inputs.entry) (S.files source.old)
        (O.device out.old) (O.device out.new) err err result }
    ensures spared { IfErr result (λ _. out.new ≡ out.old) }
    ensures counted { S.failed source.new ≡ S.failed source.old + failed_reads result }
    ensures asked { AsksFor (S.asked source.old) (S.asked source.new)
        (Looks (all_named_in files.entry inputs.entry.now) (fault_in result)) }
{
    let (documents, inputs) = documents_with_inputs(alloc, source, files, inputs, NotesRead::Long)?;
    let begun = begin_trace(alloc, &documents, inputs)?;
    Ok(tell_trace(out, &documents, begun))
}

/// Draws the run of the documents and inputs in files.
fn draw_files<S: Source, O: Output>(
    alloc: Global,
    source: &mut S,
    files: Files<'_>,
    inputs: &str,
    out: &mut O,
) -> Result<Status, Fault>
    requires { S.failed source.old ≤ 2 ^ 61 }
    ensures does { (err : Device)
        → DoesCommand (commands.DrawRun files.entry inputs.entry) (S.files source.old)
        (O.device out.old) (O.device out.new) err err result }
    ensures spared { IfErr result (λ _. out.new ≡ out.old) }
    ensures counted { S.failed source.new ≡ S.failed source.old + failed_reads result }
    ensures asked { AsksFor (S.asked source.old) (S.asked source.new)
        (Looks (all_named_in files.entry inputs.entry.now) (fault_in result)) }
{
    let (documents, inputs) = documents_with_inputs(
        alloc,
        source,
        files,
        inputs,
        NotesRead::Short,
    )?;
    let pictured = picture_run(alloc, &documents, inputs)?;
    Ok(tell_picture(out, &pictured))
}

/// Does what a command says, up to a fault.
fn try_command<S: Source, O: Output, E: Output>(
    alloc: Global,
    command: Command<'_>,
    source: &mut S,
    out: &mut O,
    err: &mut E,
) -> Result<Status, Fault>
    requires { S.failed source.old ≤ 2 ^ 61 }
    ensures does { DoesCommand command.entry (S.files source.old)
        (O.device out.old) (O.device out.new)
        (E.device err.old) (E.device err.new) result }
    ensures spared { IfErr result (λ _. (out.new ≡ out.old) × (err.new ≡ err.old)) }
    ensures counted { S.failed source.new ≡ S.failed source.old + failed_reads result }
    ensures asked { AsksFor (S.asked source.old) (S.asked source.new)
        (Looks (files_sought command.entry) (fault_in result)) }
{
    match command {
        Command::Answer(question, files) => answer_of_files(alloc, question, source, files, out),
        Command::Check(files, inputs) => check_files(alloc, source, files, inputs, out, err),
        Command::Replay(files, inputs) => replay_files(alloc, source, files, inputs, out),
        Command::Trace(files, inputs) => trace_files(alloc, source, files, inputs, out),
        Command::DrawRun(files, inputs) => draw_files(alloc, source, files, inputs, out),
    }
}

/// Does what a command says, with files: writes its result to `out`, or the line of the first fault
/// to `err`.
///
/// The files are read and checked in the order of the words. A failed write of a result ends with
/// [`Status::Failed`] and no fault line; a failed write to `err` changes nothing.
pub fn run_command<S: Source, O: Output, E: Output>(
    alloc: Global,
    command: Command<'_>,
    source: &mut S,
    out: &mut O,
    err: &mut E,
) -> Status
    requires { S.failed source.old ≤ 2 ^ 61 }
    ensures counted { S.failed source.old ≤ S.failed source.new }
    ensures told { (reply : Reply)
        × Tells reply (O.device out.old) (O.device out.new)
        (E.device err.old) (E.device err.new) result
        × ((failures : ℕ) → S.failed source.new ≡ S.failed source.old + failures
        → TellsOfReads failures reply
        × ((held : Contents)
        → AreTold (S.files source.old) held (files_sought command.entry)
        → AnswersCommand held command.entry failures reply))
        × AsksFor (S.asked source.old) (S.asked source.new)
        (LooksAsTold (files_sought command.entry) reply) }
{
    match try_command(alloc, command, source, out, err) {
        Ok(status) => status,
        Err(fault) => complain(err, fault),
    }
}
