//! A run before its first step, and the replay of one up to its verdict.

ghost use Rattle.std.specs.Prelude.{◌≡◌, ◌^◌, ◌<◌, IfErr, IfOk, option_map};
ghost use Rattle.flow_graph.specs.SettingOf.{setting};
ghost use Rattle.flow_graph.specs.Bounded.{IsBounded};
ghost use Rattle.program_replay.specs.Begun.{IsBegun, IsReplayBegun, IsTraceBegun, left_before};
ghost use Rattle.program_replay.specs.Given.{given};
ghost use Rattle.program_replay.specs.Replay.{IsReplay, IsReplayFault, IsTraceFault};

use crate::coverage::Coverage;
use crate::following::{Following, follow_run};
use base_notes::{Notes, Times};
use bound_scan::bound;
use machine_emulator::{Machine, Monitor};
use machine_steps::{Left, Verdict};
use print_lines::{Fault, Limit};
use program_limits::limit_of;
use read_decks::Deck;
use read_documents::Documents;
use read_replays::Inputs;
use std::alloc::Global;

/// A run before its first step.
#[derive(Drop)]
pub struct Begun {
    pub following: Following,
    /// The drum's angle at time 0.
    pub angle: u8,
    /// How it is known what a run that keeps to the notes uses at most.
    pub limit: Limit,
    /// The most word times that such a run uses.
    pub most: u64,
    /// The verdict, where it comes before any step.
    pub verdict: Option<Verdict>,
}

/// A trace before its first step.
#[derive(Drop)]
pub struct BegunTrace {
    pub begun: Begun,
    pub coverage: Coverage,
}

/// The verdict on a run that has left the notes before its first step.
fn verdict_before(left: Option<Left>) -> Option<Verdict>
    ensures { result ≡ option_map left_before left }
{
    match left {
        Some(what) => Some(Verdict::Left {
            what,
            step: 0,
            used: 0,
        }),
        None => None,
    }
}

/// A run of a machine with this deck, which the inputs set up and feed, before its first step.
/// `most` is what such a run uses at most, where it keeps to the notes, and `limit` how that is
/// known.
///
/// # Errors
///
/// [`Fault::Memory`] where there is no memory for the machine.
fn begin(
    alloc: Global,
    deck: &Deck,
    notes: &Notes,
    inputs: Inputs,
    limit: Limit,
    most: u64,
) -> Result<Begun, Fault>
    requires below { most < 2 ^ 50 }
    ensures begun { IfOk result (λ begun. (times : Times)
        → IsBounded (setting deck.now times notes.now) most
        → IsBegun (setting deck.now times notes.now) (given inputs) begun) }
    ensures limited { IfOk result (λ begun. (begun.limit ≡ limit) × (begun.most ≡ most)) }
    ensures memory { IfErr result (λ fault. fault ≡ Fault.Memory) }
{
    let Inputs { setup, feed } = inputs;
    let Ok(machine) = Machine::new(alloc, deck, &setup) else {
        return Err(Fault::Memory);
    };
    let monitor = Monitor::new(notes, &setup);
    let verdict = verdict_before(monitor.left());
    let following = Following {
        machine,
        monitor,
        feed,
        steps: 0,
    };
    Ok(Begun {
        following,
        angle: setup.angle,
        limit,
        most,
        verdict,
    })
}

/// The run of a machine with this deck, which the inputs set up and feed, before its first step.
///
/// # Errors
///
/// As [`replay`].
pub(crate) fn begin_replay(
    alloc: Global,
    deck: &Deck,
    times: &Times,
    notes: &Notes,
    inputs: Inputs,
) -> Result<Begun, Fault>
    ensures begun { IfOk result
        (IsReplayBegun (setting deck.now times.now notes.now) (given inputs)) }
    ensures refused { IfErr result
        (IsReplayFault (setting deck.now times.now notes.now) (given inputs)) }
{
    if let Some(location) = inputs.setup.loaded_by(deck) {
        return Err(Fault::Loaded(location));
    }
    let bound = bound(alloc, deck, times, notes)?;
    begin(alloc, deck, notes, inputs, Limit::Bound, bound)
}

/// The verdict on the run of a machine with this deck, which the inputs set up and feed.
///
/// # Errors
///
/// [`Fault::Loaded`] for the first location of the inputs' words that the deck loads too; else
/// [`Fault::Refused`] where the deck with its notes isn't accepted, or there is no memory for the
/// analysis ([`bound`]); else [`Fault::Memory`] where there is no memory for the machine.
pub fn replay(
    alloc: Global,
    deck: &Deck,
    times: &Times,
    notes: &Notes,
    inputs: Inputs,
) -> Result<Verdict, Fault>
    ensures verdict { IfOk result
        (IsReplay (setting deck.now times.now notes.now) (given inputs)) }
    ensures refused { IfErr result
        (IsReplayFault (setting deck.now times.now notes.now) (given inputs)) }
{
    let Begun {
        following,
        most,
        verdict,
        ..
    } = begin_replay(alloc, deck, times, notes, inputs)?;
    match verdict {
        Some(verdict) => Ok(verdict),
        None => Ok(follow_run(deck, times, notes, following, most)),
    }
}

/// A trace of documents, which the inputs set up and feed, before its first step.
///
/// # Errors
///
/// [`Fault::Loaded`] for the first location of the inputs' words that the deck loads too; else
/// [`Fault::Refused`] where there is neither a bound nor a ceiling to go by, or no memory to find
/// one ([`limit_of`]); else [`Fault::Memory`] where there is no memory for the machine, or for a
/// flag for each pattern of the notes.
pub fn begin_trace(
    alloc: Global,
    documents: &Documents,
    inputs: Inputs,
) -> Result<BegunTrace, Fault>
    ensures begun { IfOk result (IsTraceBegun documents.now (given inputs)) }
    ensures refused { IfErr result (IsTraceFault documents.now (given inputs)) }
{
    if let Some(location) = inputs.setup.loaded_by(&documents.deck) {
        return Err(Fault::Loaded(location));
    }
    let (limit, most) = limit_of(alloc, documents)?;
    let Ok(coverage) = Coverage::of(alloc, &documents.notes) else {
        return Err(Fault::Memory);
    };
    let begun = begin(
        alloc,
        &documents.deck,
        &documents.notes,
        inputs,
        limit,
        most,
    )?;
    Ok(BegunTrace { begun, coverage })
}
