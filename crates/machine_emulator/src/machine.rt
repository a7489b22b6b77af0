ghost use Rattle.std.specs.Prelude.{◌≡◌, ◌+◌, ◌-◌, ◌^◌, ◌<◌, ◌≤◌, unsigned_abs, IfOk, length};

use crate::feed::{Feed, is_load, is_read};
use crate::first_drum::first_drum;
use crate::memory::Memory;
use crate::registers::Registers;
use crate::setup::Setup;
use crate::step::Step;
use crate::stop::Stop;
use base_notes::{Entry, Times};
use base_words::{Instruction, Location, Op, Word};
use machine_rotation::Clockwork;
use machine_steps::Why;
use machine_steps::chain::to_ready;
use machine_steps::moments::{ended, found};
use read_decks::Deck;
use std::alloc::Global;

/// A machine: what it holds, where it seeks its next instruction, and the time that it has used.
///
/// Source: the IBM 650 Manual of Operation, but for the moments of a step.
#[derive(Debug, Drop)]
pub struct Machine {
    registers: Registers,
    sought: Location,
    used: u64,
    start: u8,
    stop: Option<Stop>,
}

impl Machine {
    ghost use Rattle.std.specs.Prelude.{List, Some, None, Result, true};
    ghost use Rattle.base_words.specs.Op.{operand_of, is_operand};
    ghost use Rattle.base_words.specs.declared.word.Word.{Word as WordType};
    ghost use Rattle.read_decks.specs.InDeck.{loads_in, start_in};
    ghost use Rattle.base_notes.specs.Entries.{entry_in};
    ghost use Rattle.machine_steps.specs.declared.why.Why.{Why as WhyType};
    ghost use Rattle.machine_steps.specs.Run.{IsFirstState};
    ghost use Rattle.machine_steps.specs.declared.card.Card.{Card};
    ghost use Rattle.machine_steps.specs.Timing.{longest_step, ready as ready_at};
    ghost use Rattle.machine_steps.specs.Step.{State, stepped_by, fetched, instruction_in};
    ghost use Rattle.machine_emulator.specs.FirstState.{IsSetUp};
    ghost use Rattle.machine_emulator.specs.Feed.{cards_left};
    ghost use Rattle.machine_emulator.specs.declared.step.Step.TheVariants as Step;
    ghost use Rattle.machine_emulator.specs.Registers.{contents_with, outcome_of};
    ghost use Rattle.machine_emulator.specs.Machine.{held_by, GoesOn, HasStopped, sought_by, used_by};
    ghost use Rattle.machine_emulator.specs.Machine.{Tells, Becomes, TakesStep, WritesAlone};
    ghost use Rattle.machine_emulator.specs.Fed.{op_in};
    ghost use Rattle.machine_emulator.specs.Machine.{EndsByAWay, state_in, punched_by};

    /// A machine at time 0: it seeks the deck's start; it has the setup's angle, registers, latch
    /// and switches, and no remainder's sign; its drum has the deck's words, elsewhere the setup's,
    /// else +0.
    ///
    /// # Errors
    ///
    /// [`Memory`] where there is no memory for the drum.
    pub fn new(alloc: Global, deck: &Deck, setup: &Setup) -> Result<Machine, Memory>
        ensures runs { IfOk result GoesOn }
        ensures set_up { IfOk result (λ machine. (cards : List Card)
            → IsSetUp (loads_in deck.now) (start_in deck.now) setup.now (state_in machine cards)) }
        // it agrees with the deck at every location
        ensures first { IfOk result (λ machine. (cards : List Card)
            → IsFirstState (loads_in deck.now) (λ _. Unit {0}) (start_in deck.now)
            (state_in machine cards)) }
    {
        let drum = first_drum(alloc, deck, setup)?;
        Ok(Machine {
            registers: Registers {
                drum,
                switches: setup.switches,
                distributor: setup.distributor,
                accumulator: setup.accumulator,
                remainder: None,
                latch: setup.latch,
                programmed_stops: setup.programmed,
                overflow_stops: setup.on_overflow,
            },
            sought: deck.start(),
            used: 0,
            start: setup.angle,
            stop: None,
        })
    }

    /// The word times used since time 0; of a machine that has stopped, up to the stop.
    pub fn used(&self) -> u64
        ensures { result ≡ used_by self.now }
    {
        self.used
    }

    /// The accumulator: one whole number of twenty digits at most.
    pub fn accumulator(&self) -> i128
        ensures number { (cards : List Card)
            → result ≡ (held_by self.now cards).accumulator }
        ensures twenty { unsigned_abs result < 10 ^ 20 }
    {
        self.registers.accumulator
    }

    /// Whether the dividend was minus, while the remainder's sign stands: the upper half of the
    /// accumulator has that sign then, and the lower half the accumulator's.
    pub fn remainder(&self) -> Option<bool>
        ensures { (cards : List Card) → result ≡ (held_by self.now cards).remainder }
    {
        self.registers.remainder
    }

    /// The word in the distributor.
    pub fn distributor(&self) -> Word
        ensures { (cards : List Card) → result ≡ (held_by self.now cards).distributor }
    {
        self.registers.distributor
    }

    /// Whether the overflow latch is on.
    pub fn latch(&self) -> bool
        ensures { (cards : List Card) → result ≡ (held_by self.now cards).latch }
    {
        self.registers.latch
    }

    /// The 2000 words of the drum, by their locations.
    pub fn drum(&self) -> &[Word]
        ensures words { (cards : List Card) → result.now ≡ (held_by self.now cards).drum }
        ensures all { length result.now ≡ 2000 }
    {
        &self.registers.drum
    }

    /// The drum's clock, which was the start angle at time 0.
    fn clock(&self) -> u64
        requires { self.now.used ≤ 2 ^ 62 }
        ensures value { result ≡ self.now.start + self.now.used }
        ensures near { result ≤ self.now.used + 255 }
    {
        u64::from(self.start) + self.used
    }

    /// The moment x of a step whose operation has this entry.
    fn ready(&self, entry: Entry) -> u64
        requires { self.now.used ≤ 2 ^ 62 }
        ensures value { let clock = self.now.start + self.now.used in
            result ≡ ready_at entry self.now.sought.number clock }
        ensures advances { self.now.start + self.now.used < result }
        ensures near { result ≤ self.now.start + self.now.used + 1000049 }
        ensures soon { result ≤ self.now.used + 1000304 }
    {
        to_ready(entry, self.sought).go(self.clock())
    }

    /// Stops at a moment of the clock.
    fn halt(&mut self, word: Word, why: Why, clock: u64) -> Step
        requires { self.old.start ≤ clock }
        ensures told { result ≡ Step.Stopped self.old.sought word why (clock - self.old.start) }
        ensures held { self.new ≡ record self.old {
          used = clock - self.old.start;
          stop = Some (record { word = word; why = why });
        } }
    {
        self.used = clock - u64::from(self.start);
        self.stop = Some(Stop { word, why });
        Step::Stopped {
            origin: self.sought,
            word,
            why,
            used: self.used,
        }
    }

    /// Ends a step at a moment of the clock, of which the registers already have the effect.
    fn finish(
        &mut self,
        word: Word,
        acted: Result<u16, Why>,
        clock: u64,
        load: bool,
        punched: Option<[Word; 10]>,
    ) -> Step
        requires on_time { self.old.start ≤ clock }
        requires runs { self.old.stop ≡ None }
        ensures tells { (s : State) (cards : List Card) → s.first_angle ≡ self.old.start
            → let acts = outcome_of acted (contents_with self.old.registers cards) in
            Tells (stepped_by s clock acts) self.old.sought word load punched result }
        ensures used { self.new.used ≡ clock - self.old.start }
        ensures becomes { (s : State) (cards : List Card) → s.first_angle ≡ self.old.start
            → let acts = outcome_of acted (contents_with self.old.registers cards) in
            Becomes (stepped_by s clock acts) self.old.sought word self.new cards }
    {
        let next = match acted {
            Ok(next) => next,
            Err(why) => return self.halt(word, why, clock),
        };
        let Some(next) = Location::new(next) else {
            return self.halt(word, Why::Next, clock);
        };
        let origin = self.sought;
        self.sought = next;
        self.used = clock - u64::from(self.start);
        Step::Went {
            origin,
            word,
            next,
            used: self.used,
            load,
            punched,
        }
    }

    /// Takes the step of an operation that was fetched, from x on.
    fn take(&mut self, op: Op, word: Word, times: &Times, feed: &mut Feed) -> Step
        requires early { self.old.used ≤ 2 ^ 62 }
        requires runs { self.old.stop ≡ None }
        requires fetched { word ≡ fetched (state_in self.old (cards_left feed.old)) }
        requires op { op_in (state_in self.old (cards_left feed.old)) ≡ Some op }
        ensures takes { TakesStep (entry_in times.now) self.old feed.old result self.new feed.new }
        ensures advances { self.old.used < self.new.used }
        ensures near { self.new.used ≤ self.old.used + longest_step }
    {
        let entry = times.entry(op);
        let instruction = Instruction::of(word);
        let (d, i) = (instruction.d, instruction.i);
        let x = self.ready(entry);
        if !op.operand().suits(d) {
            return self.halt(word, Why::Operand, x);
        }
        let card = feed.take_card(op);
        if is_read(op) && card.is_none() {
            return self.halt(word, Why::Card, x);
        }
        let units = self.registers.units(op, d);
        let wait = feed.take_wait(op, entry);
        let end = ended(entry, op, d, units, wait, x);
        let load = is_load(card);
        let punched = self.punched(op, d);
        let acted = self.registers.act(op, d, i, card);
        self.finish(word, acted, end, load, punched)
    }

    /// The words that an operation punches.
    fn punched(&self, op: Op, d: u16) -> Option<[Word; 10]>
        requires { is_operand (operand_of op) d ≡ true }
        ensures { (s : State) (cards : List Card)
            → s.contents ≡ contents_with self.now.registers cards → (instruction_in s).d ≡ d
            → result ≡ punched_by op s }
    {
        match op {
            Op::Punch => Some(self.registers.punched(d)),
            _ => None,
        }
    }

    /// Takes a step, of 92,000,099 word times at most; one that goes on takes one at least. A
    /// machine that has stopped answers the same again, and nothing changes.
    pub fn step(&mut self, times: &Times, feed: &mut Feed) -> Step
        requires { used_by self.old ≤ 2 ^ 62 }
        ensures goes { GoesOn self.old
            → TakesStep (entry_in times.now) self.old feed.old result self.new feed.new }
        ensures writes { GoesOn self.old
            → WritesAlone (state_in self.old (cards_left feed.old))
            (state_in self.new (cards_left feed.new)) }
        ensures ends { GoesOn self.old
            → EndsByAWay (state_in self.old (cards_left feed.old)) result }
        ensures advances { GoesOn self.new → used_by self.old < used_by self.new }
        ensures near { used_by self.new ≤ used_by self.old + longest_step }
        ensures rests { (word : WordType) (why : WhyType) → HasStopped self.old word why
            → (result ≡ Step.Stopped (sought_by self.old) word why (used_by self.old))
            × (self.new ≡ self.old) × (feed.new ≡ feed.old) }
    {
        if let Some(stop) = self.stop {
            return Step::Stopped {
                origin: self.sought,
                word: stop.word,
                why: stop.why,
                used: self.used,
            };
        }
        let word = self.registers.word_at(self.sought);
        match Op::of(Instruction::of(word).op) {
            Some(op) => self.take(op, word, times, feed),
            None => {
                let clock = found(self.sought, self.clock());
                self.halt(word, Why::Operation, clock)
            }
        }
    }
}
