//! The program, over its words and devices.

ghost use Rattle.std.specs.Prelude.{◌≡◌, ◌+◌, ◌^◌, ◌<◌, ◌≤◌, ◌⊎◌, ℕ, List, Some, IfOk};
ghost use Rattle.std.specs.Prelude.{IfErr, IfSome, IsErrOf, length};
ghost use Rattle.clap.specs.Walk.{texts};
ghost use Rattle.print_lines.specs.FaultStatus.{failed_reads, reads_failed};
ghost use Rattle.read_documents.specs.Joined.{IsPastLimit};
ghost use Rattle.print_lines.specs.Output.{Tells};
ghost use Rattle.print_lines.specs.Reply.{Reply, TellsOfReads, bound_reply, fault_reply};
ghost use Rattle.program_run.specs.Commands.{AnswersJoined};
ghost use Rattle.program_run.specs.Words.{Answers, Asks, ReadsAll, refused_reply};

use crate::commands::run_command;
use base_devices::{Input, Output};
use print_lines::{Fault, Part, PartFault, Status, tell_bound, tell_fault, tell_text, tell_usage};
use program_command::{Refused, read_words};
use program_limits::bound_of;
use read_documents::{Source, documents_of};
use std::alloc::Global;

/// The bound of the joined form that an input gives.
fn joined_bound<I: Input>(alloc: Global, input: &mut I) -> Result<u64, Fault>
    requires { I.called input.old ≤ 2 ^ 62 }
    ensures bound { IfOk result (λ bound. IfSome (I.unread input.old) (λ bytes.
        AnswersJoined bytes 0 (bound_reply bound))) }
    ensures fault { IfErr result (λ fault. IfSome (I.unread input.old) (λ bytes.
        AnswersJoined bytes (reads_failed fault) (fault_reply fault))) }
    ensures counted { (failures : ℕ) → I.failed input.new ≡ I.failed input.old + failures
        → failures ≡ failed_reads result }
    ensures whole { ¬ IsErrOf result (Fault.Part Part.Joined PartFault.Read)
        → ¬ IsErrOf result Fault.Memory → (I.ended input.new ≡ I.ended input.old + 1)
        ⊎ (I.given input.new ≡ I.given input.old + 16777217) }
    ensures ended { I.ended input.new ≤ I.ended input.old + 1 }
    ensures idle { I.idle input.new ≤ I.idle input.old + 1 }
    ensures grows { I.failed input.old ≤ I.failed input.new }
    ensures full { I.given input.new ≡ I.given input.old + 16777217 → IsPastLimit result }
    ensures asked { I.called input.new ≤ I.called input.old + 16777217 }
    ensures taken { I.given input.new ≤ I.given input.old + 16777217 }
    ensures each { I.called input.new + I.given input.old
        ≤ I.called input.old + I.given input.new + 1 }
{
    let documents = documents_of(alloc, input)?;
    bound_of(alloc, &documents)
}

/// Reads the joined form, a deck, a timing table and notes, and writes the deck's bound to `out`,
/// or the line of its first fault to `err`.
///
/// The whole input is read first, 16,777,217 bytes at most, and one read at most gives none: an end
/// that is met isn't asked for again. A failed write of the bound ends with
/// [`Status::Failed`] and no fault line; a failed write to `err` changes nothing.
pub fn run_joined<I: Input, O: Output, E: Output>(
    alloc: Global,
    input: &mut I,
    out: &mut O,
    err: &mut E,
) -> Status
    requires input { I.called input.old ≤ 2 ^ 62 }
    ensures told { (reply : Reply)
        × Tells reply (O.device out.old) (O.device out.new)
        (E.device err.old) (E.device err.new) result
        × ((failures : ℕ) → I.failed input.new ≡ I.failed input.old + failures
        → TellsOfReads failures reply
        × ((bytes : List ℕ) → I.unread input.old ≡ Some bytes
        → AnswersJoined bytes failures reply))
        × ReadsAll reply (I.ended input.old) (I.ended input.new)
        (I.given input.old) (I.given input.new) }
    ensures ended { I.ended input.new ≤ I.ended input.old + 1 }
    ensures idle { I.idle input.new ≤ I.idle input.old + 1 }
    ensures counted { I.failed input.old ≤ I.failed input.new }
    ensures full { I.given input.new ≡ I.given input.old + 16777217 → result ≡ Status.Failed }
    ensures asked { I.called input.new ≤ I.called input.old + 16777217 }
    ensures taken { I.given input.new ≤ I.given input.old + 16777217 }
    ensures each { I.called input.new + I.given input.old
        ≤ I.called input.old + I.given input.new + 1 }
{
    match joined_bound(alloc, input) {
        Ok(bound) => tell_bound(out, bound),
        Err(fault) => tell_fault(err, &fault),
    }
}

/// Writes why words name no command: help to `out`, all else to `err`.
fn refuse<O: Output, E: Output>(out: &mut O, err: &mut E, refused: &Refused) -> Status
    ensures { Tells (refused_reply refused.now)
        (O.device out.old) (O.device out.new)
        (E.device err.old) (E.device err.new) result }
{
    match refused {
        Refused::Help(text) => tell_text(out, text.as_bytes()),
        Refused::Usage(text) => tell_usage(err, text.as_bytes()),
        Refused::Memory => tell_fault(err, &Fault::Memory),
    }
}

/// The program: does what the words after its name say, and tells how it ends.
///
/// With no words it does what [`run_joined`] does; else it reads a command and its files, as
/// [`run_command`] does, or says why the words name none: help goes to `out`, all else to `err`.
pub fn run<'a, S: Source, I: Input, O: Output, E: Output>(
    alloc: Global,
    words: &'a [&'a str],
    source: &mut S,
    input: &mut I,
    out: &mut O,
    err: &mut E,
) -> Status
    requires source { S.failed source.old ≤ 2 ^ 61 }
    requires input { I.called input.old ≤ 2 ^ 62 }
    ensures told { (reply : Reply)
        × Tells reply (O.device out.old) (O.device out.new)
        (E.device err.old) (E.device err.new) result
        × ((failures : ℕ) → I.failed input.new + S.failed source.new
        ≡ I.failed input.old + S.failed source.old + failures
        → TellsOfReads failures reply
        × Answers (texts words.entry.now) (I.unread input.old) (S.files source.old) failures reply)
        × Asks (texts words.entry.now) (S.asked source.old) (S.asked source.new) reply
        × (length words.entry.now ≡ 0 → ReadsAll reply (I.ended input.old) (I.ended input.new)
        (I.given input.old) (I.given input.new)) }
    ensures ended { I.ended input.new ≤ I.ended input.old + 1 }
    ensures idle { I.idle input.new ≤ I.idle input.old + 1 }
    ensures counted { I.failed input.old ≤ I.failed input.new }
    ensures files { S.failed source.old ≤ S.failed source.new }
    ensures full { I.given input.new ≡ I.given input.old + 16777217 → result ≡ Status.Failed }
    ensures asked { I.called input.new ≤ I.called input.old + 16777217 }
    ensures taken { I.given input.new ≤ I.given input.old + 16777217 }
    ensures each { I.called input.new + I.given input.old
        ≤ I.called input.old + I.given input.new + 1 }
    // Where there are words, the input isn't read.
    ensures spared { 0 < length words.entry.now → input.new ≡ input.old }
{
    if words.is_empty() {
        return run_joined(alloc, input, out, err);
    }
    match read_words(alloc, words) {
        Ok(command) => run_command(alloc, command, source, out, err),
        Err(refused) => refuse(out, err, &refused),
    }
}
