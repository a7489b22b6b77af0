//! A run that is followed as a replay, and drawn.

ghost use Rattle.std.specs.Prelude.{◌^◌, ◌<◌, ℕ, IfErr, IfOk, List, [], string_bytes};
ghost use Rattle.machine_steps.specs.Run.{Stride};
ghost use Rattle.flow_graph.specs.Bounded.{IsBounded};
ghost use Rattle.flow_graph.specs.SettingOf.{setting};
ghost use Rattle.print_lines.specs.Output.{GetsResult};
ghost use Rattle.print_lines.specs.Status.{status_of};
ghost use Rattle.read_documents.specs.Documents.{setting_of};
ghost use Rattle.program_replay.specs.Begun.{IsBegun, IsReady};
ghost use Rattle.program_replay.specs.Following.{CanBegin, IsFollowed, IsFollowing};
ghost use Rattle.program_replay.specs.Following.{state_of, waits_of};
ghost use Rattle.program_replay.specs.Given.{given};
ghost use Rattle.program_replay.specs.Replay.{Given, IsJudged, IsReplay, IsReplayFault};

use crate::following::Following;
use crate::replaying::{Begun, begin_replay};
use base_devices::Output;
use base_notes::{Notes, Times};
use flow_graph::Refusal;
use machine_steps::Verdict;
use picture_walks::{Run, picture_of_run};
use print_lines::{Fault, Status, tell_text};
use read_decks::Deck;
use read_documents::Documents;
use read_replays::Inputs;
use std::alloc::{AllocError, Global};

/// A run that was followed to its verdict, and drawn.
#[derive(Drop)]
pub struct Pictured {
    pub verdict: Verdict,
    /// The picture, an SVG document.
    pub picture: String,
}

/// Follows a run up to the step with which it leaves the notes or stops, and takes each step into
/// what is drawn.
fn take_steps(
    deck: &Deck,
    times: &Times,
    notes: &Notes,
    mut following: Following,
    most: u64,
    run: &mut Run,
) -> Result<Verdict, AllocError>
    requires below { most < 2 ^ 62 }
    requires bounded { IsBounded (setting deck.now times.now notes.now) most }
    requires begins { CanBegin (setting deck.now times.now notes.now) (state_of following) }
    requires follows { IsFollowing (setting deck.now times.now notes.now) (state_of following)
        (waits_of following) most [] following }
    ensures { IfOk result (λ verdict. (strides : List Stride)
        × IsFollowed (setting deck.now times.now notes.now) (state_of following)
        (waits_of following) most strides verdict) }
{
    loop {
        let before = following.used();
        let (step, verdict) = following.advance(deck, times, notes, most);
        run.take(&step, before, times)?;
        if let Some(verdict) = verdict {
            return Ok(verdict);
        }
    }
}

/// The verdict on a run, each step of which is taken into what is drawn: none, where the verdict
/// comes before any.
fn judge(documents: &Documents, begun: Begun, run: &mut Run) -> Result<Verdict, AllocError>
    requires ready { IsReady (setting_of documents.now) begun }
    ensures { (given : Given) → IsBegun (setting_of documents.now) given begun
        → IfOk result (λ verdict. (step : ℕ)
        × IsJudged (setting_of documents.now) given begun.most step verdict) }
{
    let Begun {
        following,
        most,
        verdict,
        ..
    } = begun;
    match verdict {
        Some(verdict) => Ok(verdict),
        None => take_steps(
            &documents.deck,
            &documents.times,
            &documents.notes,
            following,
            most,
            run,
        ),
    }
}

/// Follows a run to its verdict, and draws it.
fn draw(alloc: Global, documents: &Documents, begun: Begun) -> Result<Pictured, AllocError>
    requires ready { IsReady (setting_of documents.now) begun }
    ensures { (given : Given) → IsBegun (setting_of documents.now) given begun
        → IfOk result (λ pictured. (step : ℕ)
        × IsJudged (setting_of documents.now) given begun.most step pictured.verdict) }
{
    let mut run = Run::new(alloc, begun.angle)?;
    let verdict = judge(documents, begun, &mut run)?;
    let picture = picture_of_run(
        alloc,
        run,
        &verdict,
        &documents.deck,
        &documents.times,
        &documents.notes,
    )?;
    Ok(Pictured { verdict, picture })
}

/// The verdict on the run of documents, which the inputs set up and feed, and its picture.
///
/// # Errors
///
/// As [`replay`](crate::replay); and [`Fault::Refused`] where there is no memory for the picture.
pub fn picture_run(alloc: Global, documents: &Documents, inputs: Inputs) -> Result<Pictured, Fault>
    ensures verdict { IfOk result (λ pictured.
        IsReplay (setting_of documents.now) (given inputs) pictured.verdict) }
    ensures refused { IfErr result (IsReplayFault (setting_of documents.now) (given inputs)) }
{
    let begun = begin_replay(
        alloc,
        &documents.deck,
        &documents.times,
        &documents.notes,
        inputs,
    )?;
    match draw(alloc, documents, begun) {
        Ok(pictured) => Ok(pictured),
        Err(_) => Err(Fault::Refused(Refusal::Memory)),
    }
}

/// Writes the picture of a run; the program then ends as its verdict says.
pub fn tell_picture<O: Output>(out: &mut O, pictured: &Pictured) -> Status
    ensures { GetsResult (O.device out.old) (O.device out.new) (string_bytes pictured.now.picture)
        (status_of pictured.now.verdict) result }
{
    match tell_text(out, pictured.picture.as_bytes()) {
        Status::Done => Status::after(&pictured.verdict),
        status => status,
    }
}
