ghost use Rattle.std.specs.Prelude.{◌≡◌, ◌≤◌, ◌∷◌, [], ◌++◌, length, List, Some, None, MatchOption};
ghost use Rattle.std.specs.Prelude.{MatchBool, IsTrue, Contains, ◌⊎◌};
ghost use Rattle.base_words.specs.Instruction.{instruction_of};
ghost use Rattle.read_decks.specs.InDeck.{loads_in};
ghost use Rattle.base_notes.specs.Allowed.{is_listed, allowed as allowed_at};
ghost use Rattle.machine_steps.specs.Keeps.{IsAsDeclared};
ghost use Rattle.machine_steps.specs.declared.left.Left.TheVariants as Left;

mod allowed;

use crate::setup::Setup;
use crate::step::Step;
use allowed::is_allowed;
use base_notes::{Call, Mark, Notes, Programmed};
use base_words::{Instruction, Location, Word};
use machine_steps::{Counts, Left, Open};
use read_decks::Deck;

/// Watches the steps of a run, and says whether and how the run leaves the notes.
#[derive(Drop)]
pub struct Monitor {
    counts: Counts,
    exits: Open,
    left: Option<Left>,
}

/// Whether the programmed switch is as declared.
fn is_as_declared(programmed: Programmed, stops: bool) -> bool
    ensures { MatchBool result (IsAsDeclared programmed stops) (¬ IsAsDeclared programmed stops) }
{
    match programmed {
        Programmed::Stop => stops,
        Programmed::Run => !stops,
        Programmed::Any => true,
    }
}

/// Whether the word that was fetched at the location leaves the notes.
fn unlisted(notes: &Notes, deck: &Deck, location: Location, word: Word) -> Option<Left>
    ensures { MatchOption result
        (IsTrue (is_listed notes.now location.number)
        → Contains (allowed_at (loads_in deck.now) notes.now location.number) (instruction_of word))
        (λ left. (left ≡ Left.Unlisted location word)
        × ¬ (IsTrue (is_listed notes.now location.number)
        → Contains (allowed_at (loads_in deck.now) notes.now location.number)
        (instruction_of word))) }
{
    if is_allowed(notes, deck, location, Instruction::of(word)) {
        None
    } else {
        Some(Left::Unlisted(location, word))
    }
}

impl Monitor {
    ghost use Rattle.std.specs.Prelude.{ℕ, Option};
    ghost use Rattle.base_words.specs.declared.op.Op.{Op};
    ghost use Rattle.base_words.specs.declared.word.Word.{Word};
    ghost use Rattle.base_notes.specs.declared.entry.Entry.{Entry};
    ghost use Rattle.machine_steps.specs.declared.left.Left.{Left as LeftType};
    ghost use Rattle.machine_steps.specs.Keeps.{IsKeptStride, Leaves, counts_after, open_behind};
    ghost use Rattle.machine_steps.specs.Keeps.{GoesBack, ways_after};
    ghost use Rattle.machine_steps.specs.Calls.{MayGo, open_after};
    ghost use Rattle.machine_steps.specs.OpenIn.{between};
    ghost use Rattle.machine_steps.specs.Run.{Stride};
    ghost use Rattle.machine_steps.specs.Counts.{after_pass, no_counts, AreWithin};
    ghost use Rattle.machine_steps.specs.Keeps.{counts_over};
    ghost use Rattle.machine_emulator.specs.Machine.{IsToldOf};
    ghost use Rattle.machine_emulator.specs.Monitor.{answer_of, counts_in, open_in, HasSeenKept};

    /// A monitor of a run from this setup. Where the programmed switch isn't as the notes declare
    /// it, the run has left the notes already, before its first step.
    pub fn new(notes: &Notes, setup: &Setup) -> Monitor
        ensures declared { MatchOption (answer_of result)
            (IsAsDeclared notes.now.programmed setup.now.programmed)
            (λ left. (left ≡ Left.Switch)
            × ¬ IsAsDeclared notes.now.programmed setup.now.programmed) }
        ensures seen { (loads : ℕ → Option Word) → HasSeenKept loads notes.now result [] }
    {
        prove!(notes.marks().len() <= Mark::MOST);
        prove!(notes.calls().len() <= Call::MOST);
        let left = if is_as_declared(notes.programmed(), setup.programmed) {
            None
        } else {
            Some(Left::Switch)
        };
        Monitor {
            counts: Counts::none(),
            exits: Open::none(),
            left,
        }
    }

    /// How the run left the notes; `None` while it keeps to them.
    pub fn left(&self) -> Option<Left>
        ensures { result ≡ answer_of self.now }
    {
        self.left
    }

    /// Takes a step from one location to another into account, where it goes back as calls have it,
    /// and no count is above what its mark allows.
    fn pass(&mut self, notes: &Notes, from: Location, onto: Location) -> Option<Left>
        ensures { let counts = counts_in self.old notes.now in
            let ways = open_in self.old notes.now in
            let passed = after_pass notes.now.marks from.number onto.number counts in
            let may = MayGo notes.now.calls ways (between from onto) in
            MatchOption result
            ((AreWithin notes.now.marks counts → AreWithin notes.now.marks passed)
            × (counts_in self.new notes.now ≡ passed) × may
            × (open_in self.new notes.now ≡ open_after notes.now.calls (between from onto) ways))
            (λ left. ((left ≡ Left.NotBack from onto) × ¬ may)
            ⊎ ((left ≡ Left.TooOften from onto) × may × ¬ AreWithin notes.now.marks passed)) }
    {
        if !self.exits.may_go(notes.calls(), from, onto) {
            return Some(Left::NotBack(from, onto));
        }
        match self.counts.passed(notes.marks(), from, onto) {
            Some(counts) => {
                self.counts = counts;
                self.exits = self.exits.after(notes.calls(), from, onto);
                None
            }
            None => Some(Left::TooOften(from, onto)),
        }
    }

    /// How a step leaves the notes; where it doesn't, it is taken into account.
    fn judge(&mut self, notes: &Notes, deck: &Deck, step: &Step) -> Option<Left>
        ensures { (times : Op → Entry) (stride : Stride) → IsToldOf times stride step.now
            → let counts = counts_in self.old notes.now in
            let ways = open_in self.old notes.now in
            MatchOption result
            (AreWithin notes.now.marks counts
            → IsKeptStride (loads_in deck.now) notes.now counts stride
            × (counts_in self.new notes.now ≡ counts_after notes.now counts stride)
            × GoesBack notes.now ways stride
            × (open_in self.new notes.now ≡ ways_after notes.now ways stride))
            (λ left. Leaves (loads_in deck.now) notes.now counts ways stride left) }
    {
        match step {
            Step::Stopped { origin, word, .. } => unlisted(notes, deck, *origin, *word),
            Step::Went {
                origin,
                word,
                next,
                load,
                ..
            } => {
                if let Some(left) = unlisted(notes, deck, *origin, *word) {
                    return Some(left);
                }
                if *load && !notes.load_cards() {
                    return Some(Left::LoadCard);
                }
                self.pass(notes, *origin, *next)
            }
        }
    }

    /// How the run leaves the notes at this step, or has left them before; `None` while it keeps to
    /// them. Give it the steps of one run, in order, with one deck, and with the notes that the
    /// monitor was made for. Once there is an answer, it stays the same, and nothing changes.
    pub fn check(&mut self, notes: &Notes, deck: &Deck, step: &Step) -> Option<Left>
        ensures answered { result ≡ answer_of self.new }
        ensures judged { answer_of self.old ≡ None
            → (times : Op → Entry) (strides : List Stride) (stride : Stride)
            → HasSeenKept (loads_in deck.now) notes.now self.old strides
            → IsToldOf times stride step.now
            → MatchOption result
            (HasSeenKept (loads_in deck.now) notes.now self.new (strides ++ stride ∷ []))
            (λ left. let counts = counts_over notes.now (no_counts notes.now.marks) strides in
            Leaves (loads_in deck.now) notes.now counts (open_behind notes.now strides) stride
            left) }
        ensures stays { (left : LeftType) → answer_of self.old ≡ Some left
            → (result ≡ Some left) × (self.new ≡ self.old) }
    {
        if let Some(left) = self.left {
            return Some(left);
        }
        let judged = self.judge(notes, deck, step);
        self.left = judged;
        judged
    }
}
