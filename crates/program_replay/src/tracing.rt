//! A run that is followed with a line for each of its steps, and its verdict behind them.

ghost use Rattle.std.specs.Prelude.{◌≡◌, ◌^◌, ◌<◌, ◌++◌, true, List, MatchOption, OnSome, None, []};
ghost use Rattle.std.specs.Prelude.{length};
ghost use Rattle.base_notes.specs.Entries.{entry_in};
ghost use Rattle.machine_steps.specs.Run.{Stride};
ghost use Rattle.flow_graph.specs.SettingOf.{setting};
ghost use Rattle.flow_graph.specs.Bounded.{IsBounded};
ghost use Rattle.base_devices.specs.Device.{Device};
ghost use Rattle.print_lines.specs.Stands.{Passes};
ghost use Rattle.print_lines.specs.Output.{Tells};
ghost use Rattle.print_lines.specs.Reply.{Reply};
ghost use Rattle.print_lines.specs.VerdictText.{verdict_text};
ghost use Rattle.print_hops.specs.TraceText.{stride_lines};
ghost use Rattle.read_documents.specs.Documents.{setting_of};
ghost use Rattle.program_replay.specs.Begun.{IsBegun, IsReady, IsTraceBegun};
ghost use Rattle.program_replay.specs.Coverage.{comes_at_once as is_at_once, coverage_lines};
ghost use Rattle.program_replay.specs.CoverageOf.{HasSeen};
ghost use Rattle.program_replay.specs.RunReply.{SaysTrace};
ghost use Rattle.program_replay.specs.Following.{AreUnderWay, CanBegin, IsFollowed, IsFollowing};
ghost use Rattle.program_replay.specs.Following.{state_of, waits_of};
ghost use Rattle.program_replay.specs.Replay.{Given, IsTraced, IsTracedInPart};

use crate::coverage::Coverage;
use crate::coverage_lines::put_coverage;
use crate::following::Following;
use crate::replaying::{Begun, BegunTrace};
use base_devices::Output;
use base_notes::{Notes, Times};
use machine_steps::{Left, Verdict};
use print_hops::put_step;
use print_lines::{Limit, Sheet, Status, end_result, put_verdict};
use read_decks::Deck;
use read_documents::Documents;

/// Follows a run and puts a line for each of its steps, up to the one with which it leaves the
/// notes or stops, and tells the verdict; none where a write fails before.
fn put_steps<O: Output>(
    deck: &Deck,
    times: &Times,
    notes: &Notes,
    mut following: Following,
    most: u64,
    angle: u8,
    coverage: &mut Coverage,
    sheet: &mut Sheet,
    out: &mut O,
) -> Option<Verdict>
    requires fresh { HasSeen notes.now [] coverage.old }
    requires below { most < 2 ^ 50 }
    requires bounded { IsBounded (setting deck.now times.now notes.now) most }
    requires angle { (state_of following).first_angle ≡ angle }
    requires begins { CanBegin (setting deck.now times.now notes.now) (state_of following) }
    requires follows { IsFollowing (setting deck.now times.now notes.now) (state_of following)
        (waits_of following) most [] following }
    ensures passes { (strides : List Stride)
        × MatchOption result
        (AreUnderWay (setting deck.now times.now notes.now) (state_of following)
        (waits_of following) strides)
        (IsFollowed (setting deck.now times.now notes.now) (state_of following)
        (waits_of following) most strides)
        × Passes (O.device out.old) sheet.old (O.device out.new) sheet.new
        (stride_lines (entry_in times.now) 1 strides)
        × OnSome result (HasSeen notes.now strides coverage.new) }
    ensures lost { result ≡ None → sheet.new.is_lost ≡ true }
{
    loop {
        let before = following.used();
        let (step, verdict) = following.advance(deck, times, notes, most);
        coverage.see(notes, &step);
        let (number, machine) = (following.steps, &following.machine);
        put_step(sheet, out, times, angle, number, before, &step, machine);
        if let Some(verdict) = verdict {
            return Some(verdict);
        }
        if sheet.is_lost() {
            return None;
        }
    }
}

/// Puts a line for each step of a run, none where its verdict comes before any, and tells the
/// verdict; none where a write fails before.
fn put_trace<O: Output>(
    documents: &Documents,
    begun: Begun,
    coverage: &mut Coverage,
    sheet: &mut Sheet,
    out: &mut O,
) -> Option<Verdict>
    requires ready { IsReady (setting_of documents.now) begun }
    requires fresh { HasSeen documents.now.notes [] coverage.old }
    ensures passes { (given : Given) → IsBegun (setting_of documents.now) given begun
        → (strides : List Stride)
        × MatchOption result (IsTracedInPart (setting_of documents.now) given strides)
        (IsTraced (setting_of documents.now) given begun.most strides)
        × Passes (O.device out.old) sheet.old (O.device out.new) sheet.new
        (stride_lines (entry_in documents.now.times) 1 strides)
        × OnSome result (HasSeen documents.now.notes strides coverage.new) }
    ensures sized { OnSome result
        (length coverage.new.met.items ≡ length documents.now.notes.lists) }
    ensures lost { result ≡ None → sheet.new.is_lost ≡ true }
{
    let Begun {
        following,
        angle,
        most,
        verdict,
        ..
    } = begun;
    if let Some(verdict) = verdict {
        return Some(verdict);
    }
    put_steps(
        &documents.deck,
        &documents.times,
        &documents.notes,
        following,
        most,
        angle,
        coverage,
        sheet,
        out,
    )
}

/// Whether the verdict comes before any step.
fn comes_at_once(verdict: &Verdict) -> bool
    ensures { result ≡ is_at_once verdict.now }
{
    matches!(
        verdict,
        Verdict::Left {
            what: Left::Switch,
            ..
        }
    )
}

/// Puts how much of its notes a run with this verdict has come to, nothing where the verdict comes
/// before any step.
fn put_needed<O: Output>(
    sheet: &mut Sheet,
    out: &mut O,
    notes: &Notes,
    coverage: &Coverage,
    verdict: &Verdict,
)
    requires { length coverage.now.met.items ≡ length notes.now.lists }
    ensures { (strides : List Stride) → HasSeen notes.now strides coverage.now
        → Passes (O.device out.old) sheet.old (O.device out.new) sheet.new
        (coverage_lines notes.now strides verdict.now) }
{
    if comes_at_once(verdict) {
        return;
    }
    put_coverage(sheet, out, notes, coverage);
}

/// Puts how much of its notes a run has come to, and its verdict.
fn put_end<O: Output>(
    sheet: &mut Sheet,
    out: &mut O,
    limit: Limit,
    notes: &Notes,
    coverage: &Coverage,
    verdict: &Verdict,
)
    requires { length coverage.now.met.items ≡ length notes.now.lists }
    ensures { (strides : List Stride) → HasSeen notes.now strides coverage.now
        → Passes (O.device out.old) sheet.old (O.device out.new) sheet.new
        (coverage_lines notes.now strides verdict.now ++ verdict_text limit verdict.now) }
{
    put_needed(sheet, out, notes, coverage, verdict);
    put_verdict(sheet, out, limit, verdict);
}

/// Writes the steps of a run, how much of its notes these come to, and its verdict. Once a write
/// fails the run is followed no further.
pub fn tell_trace<O: Output>(out: &mut O, documents: &Documents, trace: BegunTrace) -> Status
    requires ready { IsReady (setting_of documents.now) trace.begun }
    requires fresh { HasSeen documents.now.notes [] trace.coverage }
    ensures { (given : Given) → IsTraceBegun documents.now given trace
        → (reply : Reply) × SaysTrace documents.now given reply
        × ((err : Device) → Tells reply (O.device out.old) (O.device out.new) err err result) }
{
    let BegunTrace {
        begun,
        mut coverage,
    } = trace;
    let limit = begun.limit;
    let mut sheet = Sheet::new();
    match put_trace(documents, begun, &mut coverage, &mut sheet, out) {
        Some(verdict) => {
            let notes = &documents.notes;
            put_end(&mut sheet, out, limit, notes, &coverage, &verdict);
            end_result(sheet, out, Status::after(&verdict))
        }
        None => Status::Failed,
    }
}
