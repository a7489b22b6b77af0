//! How much of what its notes allow a run has come to.

ghost use Rattle.std.specs.Prelude.{◌≡◌, ℕ, ◌≤◌, ◌<◌, ◌==◌, ◌&&◌, ◌||◌, max, Bool, false, []};
ghost use Rattle.std.specs.Prelude.{◌∷◌, ◌++◌, List, IfOk, length, map};
ghost use Rattle.std.specs.Prelude.{slice_index};
ghost use Rattle.base_words.specs.declared.op.Op.{Op};
ghost use Rattle.base_notes.specs.declared.entry.Entry.{Entry};
ghost use Rattle.base_notes.specs.declared.notes.pattern.Pattern.{Pattern};
ghost use Rattle.base_notes.specs.Allowed.{Listed};
ghost use Rattle.base_notes.specs.Listed.{listed};
ghost use Rattle.machine_steps.specs.Counts.{AreWithin, after_pass};
ghost use Rattle.machine_steps.specs.CountsIn.{counts_in};
ghost use Rattle.machine_steps.specs.Run.{Stride};
ghost use Rattle.machine_emulator.specs.Machine.{IsToldOf};
ghost use Rattle.program_replay.specs.Coverage.{is_match};

use crate::met::Met;
use base_notes::{Listing, Mark, Notes};
use base_words::{Instruction, Location};
use machine_emulator::Step;
use machine_steps::{Counts, count_pass};
use std::alloc::{AllocError, Global};

/// How often the marks of notes were passed in a run at most, and which patterns of their lists
/// were met.
#[derive(Drop)]
pub struct Coverage {
    counts: Counts,
    /// The highest that each of these counts was.
    highest: Counts,
    /// Of each list, in order.
    met: Vec<Met>,
}

/// None of the patterns of these lists.
fn none_met(alloc: Global, lists: &[Listing]) -> Result<Vec<Met>, AllocError>
    ensures { IfOk result (λ met. met.items
        ≡ map (λ list. map (λ _. false) list.patterns.items) lists.now) }
{
    let mut met = Vec::new(alloc);
    for list in lists {
        met.push(Met::none(alloc, &list.patterns)?)?;
    }
    Ok(met)
}

/// Raises the highest counts of the first `marks` marks to these counts, where they are lower.
fn raise(highest: &mut [u16; Mark::MOST], counts: &[u16; Mark::MOST], marks: usize)
    requires { marks ≤ 64 }
    ensures { (place : ℕ) → place < marks → slice_index highest.new place
        ≡ max (slice_index highest.old place) (slice_index counts.now place) }
{
    for place in 0..marks {
        highest[place] = highest[place].max(counts[place]);
    }
}

impl Coverage {
    ghost use Rattle.program_replay.specs.CoverageOf.{HasSeen, counts_of, flags_of, met_at, passed_at};

    /// That of a run under these notes, before its first step.
    pub fn of(alloc: Global, notes: &Notes) -> Result<Coverage, AllocError>
        ensures { IfOk result (HasSeen notes.now []) }
    {
        prove!(notes.marks().len() <= Mark::MOST);
        let met = none_met(alloc, notes.lists())?;
        let none = Counts::none();
        Ok(Coverage {
            counts: none,
            highest: none,
            met,
        })
    }

    /// Counts a step from one location to another.
    fn pass(&mut self, marks: &[Mark], from: Location, onto: Location)
        requires few { length marks.now ≤ 64 }
        requires within { AreWithin marks.now (counts_in self.old.counts marks.now) }
        ensures counts { counts_in self.new.counts marks.now
            ≡ after_pass marks.now from.number onto.number
            (counts_in self.old.counts marks.now) }
        ensures highest { (place : ℕ) → place < length marks.now
            → slice_index (counts_in self.old.counts marks.now) place
            ≤ passed_at self.old place → passed_at self.new place ≡ max (passed_at self.old place)
            (slice_index (counts_in self.new.counts marks.now) place) }
        ensures met { self.new.met ≡ self.old.met }
    {
        if let Some(place) = Mark::on_edge(marks, from, onto) {
            count_pass(&mut self.counts.passes, marks, place);
            raise(&mut self.highest.passes, &self.counts.passes, marks.len());
        }
    }

    /// Notes which patterns of the location's list the instruction matches.
    fn meet(&mut self, lists: &[Listing], location: Location, instruction: Instruction)
        requires { (flag : Listed → Pattern → Bool)
            × (self.old.met.items ≡ flags_of flag (map listed lists.now)) }
        ensures met { (flag : Listed → Pattern → Bool)
            → self.old.met.items ≡ flags_of flag (map listed lists.now)
            → self.new.met.items ≡ flags_of (λ list pattern. flag list pattern
            || (location.number == list.location && is_match pattern instruction))
            (map listed lists.now) }
        ensures counts { self.new.counts ≡ self.old.counts }
        ensures highest { self.new.highest ≡ self.old.highest }
    {
        for place in 0..lists.len() {
            self.met[place].see(&lists[place], location, instruction);
        }
    }

    /// Takes in one step more of the run, under the notes that it was made for.
    pub fn see(&mut self, notes: &Notes, step: &Step)
        requires within { AreWithin notes.now.marks (counts_of self.old notes.now) }
        requires flags { (flag : Listed → Pattern → Bool)
            × (self.old.met.items ≡ flags_of flag notes.now.lists) }
        ensures { (times : Op → Entry) (strides : List Stride) (stride : Stride)
            → HasSeen notes.now strides self.old → IsToldOf times stride step.now
            → HasSeen notes.now (strides ++ stride ∷ []) self.new }
    {
        match step {
            Step::Stopped { origin, word, .. } => {
                self.meet(notes.lists(), *origin, Instruction::of(*word));
            }
            Step::Went {
                origin,
                word,
                next,
                ..
            } => {
                self.meet(notes.lists(), *origin, Instruction::of(*word));
                self.pass(notes.marks(), *origin, *next);
            }
        }
    }

    /// The highest count that the mark with this index had.
    pub fn passed(&self, place: usize) -> u16
        requires { place < 64 }
        ensures { result ≡ passed_at self.now place }
    {
        self.highest.passes[place]
    }

    /// How many patterns of the list with this index were met.
    pub fn met(&self, place: usize) -> usize
        requires { place < length self.now.met.items }
        ensures { result ≡ met_at self.now place }
    {
        self.met[place].count()
    }
}
