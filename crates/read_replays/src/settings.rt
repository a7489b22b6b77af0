ghost use Rattle.std.specs.Prelude.{List, [], ◌∷◌, ◌++◌, ◌↔◌, IsTrue};
ghost use Rattle.read_replays.specs.InputsOfLines.{CanBeStated, HoldSettings};
ghost use Rattle.read_replays.specs.InputsText.{Line, Repeats};
ghost use Rattle.read_replays.specs.Said.{stated};

use crate::setting::Setting;
use base_words::Word;

/// The settings that lines have stated so far, each as in `Setting`.
#[derive(Clone, Copy)]
pub struct Settings {
    pub angle: Option<u8>,
    pub switches: Option<Word>,
    pub distributor: Option<Word>,
    pub accumulator: Option<i128>,
    pub latch: Option<bool>,
    pub programmed: Option<bool>,
    pub on_overflow: Option<bool>,
}

impl Settings {
    /// No settings.
    pub fn none() -> Settings
        ensures { HoldSettings result [] }
    {
        Settings {
            angle: None,
            switches: None,
            distributor: None,
            accumulator: None,
            latch: None,
            programmed: None,
            on_overflow: None,
        }
    }

    /// Whether a line has stated the same thing, whatever its value.
    pub fn has(&self, setting: &Setting) -> bool
        ensures { (lines : List Line) → HoldSettings self.now lines
            → IsTrue result ↔ Repeats lines (stated setting.now) }
    {
        match setting {
            Setting::Angle(_) => self.angle.is_some(),
            Setting::Switches(_) => self.switches.is_some(),
            Setting::Distributor(_) => self.distributor.is_some(),
            Setting::Accumulator(_) => self.accumulator.is_some(),
            Setting::Latch(_) => self.latch.is_some(),
            Setting::Programmed(_) => self.programmed.is_some(),
            Setting::OnOverflow(_) => self.on_overflow.is_some(),
        }
    }

    /// Takes a setting that no line has stated.
    pub fn take(&mut self, setting: Setting)
        requires { CanBeStated setting }
        ensures { (lines : List Line) → HoldSettings self.old lines
            → ¬ Repeats lines (stated setting)
            → HoldSettings self.new (lines ++ stated setting ∷ []) }
    {
        match setting {
            Setting::Angle(angle) => self.angle = Some(angle),
            Setting::Switches(word) => self.switches = Some(word),
            Setting::Distributor(word) => self.distributor = Some(word),
            Setting::Accumulator(number) => self.accumulator = Some(number),
            Setting::Latch(is_on) => self.latch = Some(is_on),
            Setting::Programmed(stops) => self.programmed = Some(stops),
            Setting::OnOverflow(stops) => self.on_overflow = Some(stops),
        }
    }
}
