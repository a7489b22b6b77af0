//! How often each location is visited, and for how long.

use crate::operations::Operations;
use crate::parts::data_of;
use base_notes::Notes;
use base_words::{Instruction, Location};
use flow_graph::rediscover;
use flow_walks::Visit;
use read_decks::Deck;
use std::alloc::{AllocError, Global};

/// How many locations there are: those of the drum, then 8000 to 8003.
const LOCATIONS: usize = Location::DRUM as usize + 4;

/// What a walk and a deck have to do with a location.
#[derive(Clone, Copy)]
pub struct Tally {
    /// Whether the deck gives it a word.
    pub loaded: bool,
    /// Whether some walk executes it.
    pub executed: bool,
    /// How often the walk executes it.
    pub visits: u128,
    /// The word times that the walk spends at it.
    pub time: u128,
    /// How often the walk waits for it as data.
    pub data: u128,
    /// Which operations stand there: those that the walk executes, else that of the deck's word.
    pub operations: Operations,
}

impl Tally {
    /// Of a location that nothing is known of.
    pub const NONE: Tally = Tally {
        loaded: false,
        executed: false,
        visits: 0,
        time: 0,
        data: 0,
        operations: Operations::None,
    };

    /// Whether the location is drawn.
    pub fn is_used(self) -> bool {
        self.loaded || self.executed || self.visits > 0 || self.data > 0
    }
}

/// The tallies of all locations.
#[derive(Drop)]
pub struct Tallies {
    all: Vec<Tally>,
}

/// The index of a location's tally.
fn place_of(location: Location) -> usize {
    let number = usize::from(location.number());
    if number < usize::from(Location::DRUM) {
        number
    } else {
        number.saturating_sub(6000)
    }
}

impl Tallies {
    /// Of locations that nothing is known of.
    pub fn new(alloc: Global) -> Result<Tallies, AllocError> {
        Ok(Tallies {
            all: vec![in alloc; Tally::NONE; LOCATIONS]?,
        })
    }

    /// Counts a hop that the walk takes so often.
    pub fn count(&mut self, visit: &Visit, taken: u128) {
        if let Some(tally) = self.all.get_mut(place_of(visit.place)) {
            let time = u128::from(visit.took).saturating_mul(taken);
            tally.visits = tally.visits.saturating_add(taken);
            tally.time = tally.time.saturating_add(time);
            tally.operations = tally.operations.with(visit.instruction.op());
        }
        let Some(data) = data_of(visit) else {
            return;
        };
        if let Some(tally) = self.all.get_mut(place_of(data)) {
            tally.data = tally.data.saturating_add(taken);
        }
    }

    /// Notes that some walk executes a location.
    pub fn note_executed(&mut self, location: Location) {
        if let Some(tally) = self.all.get_mut(place_of(location)) {
            tally.executed = true;
        }
    }

    /// Notes the words of a deck, when all hops are counted.
    pub fn note_loaded(&mut self, deck: &Deck) {
        for (number, tally) in (0..Location::DRUM).zip(self.all.iter_mut()) {
            let word = Location::new(number).and_then(|location| deck.word(location));
            tally.loaded = word.is_some();
            if let (Some(word), Operations::None) = (word, tally.operations) {
                tally.operations = Operations::One(Instruction::of(word).op());
            }
        }
    }

    /// Notes the words of a deck, when all hops are counted, and which locations some walk executes
    /// under these notes.
    pub fn note_flow(
        &mut self,
        alloc: Global,
        deck: &Deck,
        notes: &Notes,
    ) -> Result<(), AllocError> {
        let flow = rediscover(alloc, deck, notes)?;
        for location in flow.executed() {
            self.note_executed(*location);
        }
        self.note_loaded(deck);
        Ok(())
    }

    /// The tally of the location of this number.
    pub fn at(&self, number: u16) -> Tally {
        match Location::new(number) {
            Some(location) => self
                .all
                .get(place_of(location))
                .copied()
                .unwrap_or(Tally::NONE),
            None => Tally::NONE,
        }
    }

    /// Whether a location from the first to the last is drawn.
    pub fn any_used(&self, first: u16, last: u16) -> bool {
        (first..=last).any(|number| self.at(number).is_used())
    }

    /// The most word times that the walk spends at one location.
    pub fn most_time(&self) -> u128 {
        let mut most = 0u128;
        for tally in self.all.iter() {
            most = most.max(tally.time);
        }
        most
    }
}
