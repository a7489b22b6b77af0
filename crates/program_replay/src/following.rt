//! A replayed run, followed step by step until it stops or leaves the notes.

ghost use Rattle.std.specs.Prelude.{◌≡◌, ℕ, ◌+◌, ◌^◌, ◌<◌, ◌≤◌, List, MatchOption, None, [], ◌∷◌};
ghost use Rattle.std.specs.Prelude.{◌++◌};
ghost use Rattle.base_notes.specs.Entries.{entry_in};
ghost use Rattle.machine_steps.specs.Run.{Stride};
ghost use Rattle.machine_steps.specs.Step.{State, contents_after};
ghost use Rattle.machine_emulator.specs.Feed.{cards_left};
ghost use Rattle.machine_emulator.specs.Machine.{GoesOn, held_by};
ghost use Rattle.machine_emulator.specs.Machine.{IsToldOf};
ghost use Rattle.flow_graph.specs.SettingOf.{setting};
ghost use Rattle.flow_graph.specs.Bounded.{IsBounded};
ghost use Rattle.program_replay.specs.Following.{AreOfRun, CanBegin, IsFollowed, IsFollowing};
ghost use Rattle.program_replay.specs.Following.{stride_of, used_so_far, state_of, waits_of};

use base_notes::{Notes, Times};
use machine_emulator::{Feed, Machine, Monitor, Step};
use machine_steps::Verdict;
use read_decks::Deck;

/// A run, as far as it was followed.
#[derive(Drop)]
pub struct Following {
    pub machine: Machine,
    pub monitor: Monitor,
    pub feed: Feed,
    /// How many steps were taken.
    pub steps: u64,
}

impl Following {
    /// The word times used since time 0.
    pub fn used(&self) -> u64
        ensures { result ≡ used_so_far self.now }
    {
        self.machine.used()
    }

    /// Takes one step more, and tells the verdict on the run where it comes with this step.
    pub fn advance(
        &mut self,
        deck: &Deck,
        times: &Times,
        notes: &Notes,
        bound: u64,
    ) -> (Step, Option<Verdict>)
        requires below { bound < 2 ^ 62 }
        requires within { used_so_far self.old ≤ bound }
        requires few { self.old.steps ≤ bound }
        ensures told { GoesOn self.old.machine
            → IsToldOf (entry_in times.now) (stride_of (entry_in times.now) self.old) result.0 }
        ensures held { GoesOn self.old.machine
            → held_by self.new.machine (cards_left self.new.feed)
            ≡ contents_after (stride_of (entry_in times.now) self.old).outcome }
        ensures advanced { (s : State) (waits : List ℕ) (strides : List Stride)
            → CanBegin (setting deck.now times.now notes.now) s
            → IsBounded (setting deck.now times.now notes.now) bound
            → IsFollowing (setting deck.now times.now notes.now) s waits bound strides self.old
            → MatchOption result.1
            (IsFollowing (setting deck.now times.now notes.now) s waits bound
            (strides ++ stride_of (entry_in times.now) self.old ∷ []) self.new)
            (IsFollowed (setting deck.now times.now notes.now) s waits bound
            (strides ++ stride_of (entry_in times.now) self.old ∷ [])) }
        ensures of_run { (s : State) (waits : List ℕ) (strides : List Stride)
            → CanBegin (setting deck.now times.now notes.now) s
            → IsBounded (setting deck.now times.now notes.now) bound
            → IsFollowing (setting deck.now times.now notes.now) s waits bound strides self.old
            → AreOfRun (setting deck.now times.now notes.now) s waits
            (strides ++ stride_of (entry_in times.now) self.old ∷ []) }
        ensures later { GoesOn self.new.machine → used_so_far self.old < used_so_far self.new }
        ensures steps { self.new.steps ≡ self.old.steps + 1 }
    {
        let before = self.machine.used();
        let step = self.machine.step(times, &mut self.feed);
        self.steps += 1;
        if let Some(what) = self.monitor.check(notes, deck, &step) {
            let left = Verdict::Left {
                what,
                step: self.steps,
                used: before,
            };
            return (step, Some(left));
        }
        if let Step::Stopped { why, used, .. } = step {
            return (step, Some(Verdict::Kept { used, bound, why }));
        }
        (step, None)
    }
}

/// Follows a run until it leaves the notes or stops. It ends, since each step uses time, and no run
/// that keeps to the notes uses more than the bound.
pub fn follow_run(
    deck: &Deck,
    times: &Times,
    notes: &Notes,
    mut following: Following,
    bound: u64,
) -> Verdict
    requires below { bound < 2 ^ 62 }
    requires bounded { IsBounded (setting deck.now times.now notes.now) bound }
    requires begins { CanBegin (setting deck.now times.now notes.now) (state_of following) }
    requires follows { IsFollowing (setting deck.now times.now notes.now) (state_of following)
        (waits_of following) bound [] following }
    ensures { (strides : List Stride) × IsFollowed (setting deck.now times.now notes.now)
        (state_of following) (waits_of following) bound strides result }
{
    loop {
        let (_, verdict) = following.advance(deck, times, notes, bound);
        if let Some(verdict) = verdict {
            return verdict;
        }
    }
}
