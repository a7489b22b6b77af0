ghost use Rattle.std.specs.Prelude.{ℕ, List, [], take, IfOk};
ghost use Rattle.read_decks.specs.Taking.{IsTaken};
ghost use Rattle.read_replays.specs.InputsOfLines.{CanBeStated, HoldsLines, input_rules};
ghost use Rattle.read_replays.specs.Inputs.{AreInputsOf};
ghost use Rattle.read_replays.specs.InputsText as text;
ghost use Rattle.read_replays.specs.Said.{stated};

use crate::drum_words::DrumWords;
use crate::fault::InputFault;
use crate::inputs::Inputs;
use crate::line::Line;
use crate::setting::Setting;
use crate::settings::Settings;
use base_words::{Location, Word};
use machine_emulator::{Feed, Setup};
use machine_steps::Card;
use read_decks::{DeckCard, Taking};
use std::alloc::{AllocError, Global};

/// Inputs of which some lines have been taken.
#[derive(Drop)]
pub struct Stating {
    settings: Settings,
    drum: DrumWords,
    cards: Vec<Card>,
    waits: Vec<u32>,
}

impl Stating {
    /// Inputs of which no line has been taken.
    pub fn new(alloc: Global) -> Result<Stating, AllocError>
        ensures { IfOk result (λ stating. HoldsLines stating []) }
    {
        Ok(Stating {
            settings: Settings::none(),
            drum: DrumWords::new(alloc)?,
            cards: Vec::new(alloc),
            waits: Vec::new(alloc),
        })
    }

    /// Takes a setting.
    fn state(&mut self, setting: Setting, line: u16) -> Option<InputFault>
        requires { CanBeStated setting }
        ensures { (bytes : List ℕ) → text.IsLine bytes (stated setting)
            → IsTaken input_rules self.old self.new bytes line result }
    {
        if self.settings.has(&setting) {
            return Some(InputFault::Repeated(line));
        }
        self.settings.take(setting);
        None
    }

    /// Takes words for drum locations.
    fn give(&mut self, card: &DeckCard, line: u16) -> Result<Option<InputFault>, AllocError>
        ensures { IfOk result (λ outcome. (bytes : List ℕ)
            → text.IsLine bytes (text.words card.now.address (take card.now.len card.now.words))
            → IsTaken input_rules self.old self.new bytes line outcome) }
    {
        let words = card.words();
        if usize::from(card.address) + words.len() > usize::from(Location::DRUM) {
            return Ok(Some(InputFault::PastDrum(line)));
        }
        if self.drum.has_any(card.address, words.len()) {
            return Ok(Some(InputFault::Repeated(line)));
        }
        self.drum.give(card.address, words)?;
        Ok(None)
    }

    /// The inputs, once all lines have been taken.
    pub fn finish(self) -> Inputs
        requires { (lines : List text.Line) × HoldsLines self lines }
        ensures { (lines : List text.Line) → HoldsLines self lines → AreInputsOf result lines }
    {
        let zero = Word {
            minus: false,
            digits: 0,
        };
        let settings = self.settings;
        let drum = self.drum;
        Inputs {
            setup: Setup {
                angle: settings.angle.unwrap_or(0),
                switches: settings.switches.unwrap_or(zero),
                distributor: settings.distributor.unwrap_or(zero),
                accumulator: settings.accumulator.unwrap_or(0),
                latch: settings.latch.unwrap_or(false),
                programmed: settings.programmed.unwrap_or(true),
                on_overflow: settings.on_overflow.unwrap_or(true),
                words: drum.words,
            },
            feed: Feed::new(self.cards, self.waits),
        }
    }
}

impl Taking for Stating {
    type Fault = InputFault;

    ghost use Rattle.read_replays.specs.InputsOfLines.{input_rules};

    ghost rules = { input_rules };

    fn take(&mut self, bytes: &[u8], number: u16) -> Result<Option<InputFault>, AllocError> {
        match Line::read(bytes) {
            None => Ok(Some(InputFault::Line(number))),
            Some(Line::Comment) => Ok(None),
            Some(Line::Setting(setting)) => Ok(self.state(setting, number)),
            Some(Line::Words(card)) => self.give(&card, number),
            Some(Line::Card(card)) => {
                self.cards.push(card)?;
                Ok(None)
            }
            Some(Line::Wait(wait)) => {
                self.waits.push(wait)?;
                Ok(None)
            }
        }
    }
}
