ghost use Rattle.std.specs.Prelude.{◌≡◌, ◌≢◌, ◌^◌, ◌<◌, ◌↔◌, unsigned_abs, IsTrue, IsSome, IfSome};
ghost use Rattle.std.specs.Prelude.{MatchBool};
ghost use Rattle.std.specs.List.{Any, All};
ghost use Rattle.machine_emulator.specs.Setup.{HaveOwnLocations, IsSetup, first_loaded, given_to};

use crate::arithmetic::WHOLE;
use base_words::{Location, REVOLUTION, Word};
use read_decks::Deck;

/// What a machine is set up with beside its deck.
#[derive(Debug, Drop)]
pub struct Setup {
    /// The drum's angle at time 0, below 50.
    pub angle: u8,
    /// The word of the storage entry switches.
    pub switches: Word,
    /// The word in the distributor.
    pub distributor: Word,
    /// The accumulator: one whole number of twenty digits at most.
    pub accumulator: i128,
    /// Whether the overflow latch is on.
    pub latch: bool,
    /// Whether the programmed switch is at STOP.
    pub programmed: bool,
    /// Whether the overflow switch is at STOP.
    pub on_overflow: bool,
    /// Words for locations on the drum, one for each at most.
    pub words: Vec<(Location, Word)>,
    pub ghost angle_on_drum: { angle < 50 },
    pub ghost twenty: { unsigned_abs accumulator < 10 ^ 20 },
    pub ghost own_locations: { HaveOwnLocations words.items },
}

/// Whether one of the words is for the location.
fn is_given(words: &[(Location, Word)], location: Location) -> bool
    ensures { MatchBool result
        (Any (λ given. given.0.number ≡ location.number) words.now)
        (All (λ given. given.0.number ≢ location.number) words.now) }
{
    for given in words {
        if given.0.number() == location.number() {
            return true;
        }
    }
    false
}

/// Whether each word is for a location of its own on the drum.
fn have_own_locations(words: &[(Location, Word)]) -> bool
    ensures { IsTrue result ↔ HaveOwnLocations words.now }
{
    for (place, given) in words.iter().enumerate() {
        if given.0.number() >= Location::DRUM {
            return false;
        }
        if is_given(&words[..place], given.0) {
            return false;
        }
    }
    true
}

impl Setup {
    ghost use Rattle.read_decks.specs.InDeck.{loads_in};

    /// A setup: the drum's angle at time 0, the words of the switches and of the distributor, the
    /// accumulator, whether the overflow latch is on, whether the programmed switch and the
    /// overflow switch are at STOP, and words for drum locations. `None` for an angle from 50 on, a
    /// magnitude from 10^20 on, a word off the drum, or a location that is given twice.
    pub fn new(
        angle: u8,
        switches: Word,
        distributor: Word,
        accumulator: i128,
        latch: bool,
        programmed: bool,
        on_overflow: bool,
        words: Vec<(Location, Word)>,
    ) -> Option<Setup>
        ensures valid { IsSome result ↔ IsSetup angle accumulator words.items }
        ensures angle { IfSome result (λ setup. setup.angle ≡ angle) }
        ensures switches { IfSome result (λ setup. setup.switches ≡ switches) }
        ensures distributor { IfSome result (λ setup. setup.distributor ≡ distributor) }
        ensures accumulator { IfSome result (λ setup. setup.accumulator ≡ accumulator) }
        ensures latch { IfSome result (λ setup. setup.latch ≡ latch) }
        ensures programmed { IfSome result (λ setup. setup.programmed ≡ programmed) }
        ensures on_overflow { IfSome result (λ setup. setup.on_overflow ≡ on_overflow) }
        ensures words { IfSome result (λ setup. setup.words ≡ words) }
    {
        if u64::from(angle) >= REVOLUTION || accumulator.unsigned_abs() >= WHOLE {
            return None;
        }
        if !have_own_locations(&words) {
            return None;
        }
        Some(Setup {
            angle,
            switches,
            distributor,
            accumulator,
            latch,
            programmed,
            on_overflow,
            words,
        })
    }

    /// The word that the setup gives to a location; `None` where it gives none.
    pub(crate) fn given(&self, location: Location) -> Option<Word>
        ensures { result ≡ given_to location.number self.now.words.items }
    {
        let given = self
            .words
            .iter()
            .find(|given| given.0.number() == location.number())?;
        Some(given.1)
    }

    /// The first location of its words, in their order, that the deck loads; `None` where it loads
    /// none.
    pub fn loaded_by(&self, deck: &Deck) -> Option<Location>
        ensures { result ≡ first_loaded (loads_in deck.now) self.now.words.items }
    {
        self.words
            .iter()
            .map(|given| given.0)
            .find(|location| deck.word(*location).is_some())
    }
}
