ghost use Rattle.std.specs.Prelude.{◌≡◌, ◌≢◌, [], ◌∷◌, ◌++◌, if◌then◌else◌, IfSome, IfNone};
ghost use Rattle.std.specs.Prelude.{IsTrue, ◌↔◌};
ghost use Rattle.base_words.specs.Word.{spelling};
ghost use Rattle.read_replays.specs.InputsText as text;
ghost use Rattle.read_replays.specs.Said.{stated};

use crate::accumulator::read_accumulator;
use crate::digits::read_angle;
use crate::key::behind;
use base_words::Word;

/// What a line states of a machine's setup, once at most.
#[derive(Clone, Copy)]
pub enum Setting {
    /// The drum's angle at time 0, below 50.
    Angle(u8),
    /// The word of the storage entry switches.
    Switches(Word),
    /// The word in the distributor.
    Distributor(Word),
    /// The accumulator: one whole number of twenty digits at most.
    Accumulator(i128),
    /// Whether the overflow latch is on.
    Latch(bool),
    /// Whether the programmed switch is at STOP.
    Programmed(bool),
    /// Whether the overflow switch is at STOP.
    OnOverflow(bool),
}

/// The word behind the key.
fn read_word(line: &[u8], key: &[u8]) -> Option<Word>
    ensures found { IfSome result (λ word. line.now ≡ key.now ++ spelling word) }
    ensures none { IfNone result ((word : Word) → line.now ≢ key.now ++ spelling word) }
{
    let Some(word) = behind(line, key) else {
        return None;
    };
    Word::read(word)
}

/// Whether the line is the first text; `None` where it is neither.
fn read_choice(line: &[u8], first: &[u8], second: &[u8]) -> Option<bool>
    ensures found { IfSome result (λ is_first.
        line.now ≡ (if is_first then first.now else second.now)) }
    ensures first { IfNone result (line.now ≢ first.now) }
    ensures second { IfNone result (line.now ≢ second.now) }
{
    if line == first {
        Some(true)
    } else if line == second {
        Some(false)
    } else {
        None
    }
}

impl Setting {
    ghost use Rattle.read_replays.specs.declared.setting.Setting.{Setting};

    /// The setting that a line states.
    pub fn read(line: &[u8]) -> Option<Setting>
        ensures found { IfSome result (λ setting. text.IsLine line.now (stated setting)) }
        ensures none { IfNone result ((setting : Setting)
            → ¬ text.IsLine line.now (stated setting)) }
    {
        if let Some(angle) = read_angle(line) {
            return Some(Setting::Angle(angle));
        }
        if let Some(word) = read_word(line, b"SWITCHES ") {
            return Some(Setting::Switches(word));
        }
        if let Some(word) = read_word(line, b"DISTRIBUTOR ") {
            return Some(Setting::Distributor(word));
        }
        if let Some(number) = read_accumulator(line) {
            return Some(Setting::Accumulator(number));
        }
        if let Some(is_on) = read_choice(line, b"LATCH ON", b"LATCH OFF") {
            return Some(Setting::Latch(is_on));
        }
        if let Some(stops) = read_choice(line, b"PROGRAMMED STOP", b"PROGRAMMED RUN") {
            return Some(Setting::Programmed(stops));
        }
        match read_choice(line, b"ONOVERFLOW STOP", b"ONOVERFLOW SENSE") {
            Some(stops) => Some(Setting::OnOverflow(stops)),
            None => None,
        }
    }

    /// Whether another setting states the same thing, whatever its value.
    pub fn is_of(&self, other: &Setting) -> bool
        ensures { IsTrue result ↔ text.Repeats (stated other.now ∷ []) (stated self.now) }
    {
        match (self, other) {
            (Setting::Angle(_), Setting::Angle(_)) => true,
            (Setting::Switches(_), Setting::Switches(_)) => true,
            (Setting::Distributor(_), Setting::Distributor(_)) => true,
            (Setting::Accumulator(_), Setting::Accumulator(_)) => true,
            (Setting::Latch(_), Setting::Latch(_)) => true,
            (Setting::Programmed(_), Setting::Programmed(_)) => true,
            (Setting::OnOverflow(_), Setting::OnOverflow(_)) => true,
            _ => false,
        }
    }
}
