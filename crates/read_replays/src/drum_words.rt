ghost use Rattle.std.specs.Prelude.{◌≡◌, vec_len};

use base_words::{Location, Word};
use std::alloc::{AllocError, Global};

/// Words for drum locations.
#[derive(Drop)]
pub struct DrumWords {
    /// The words, each with its location.
    pub words: Vec<(Location, Word)>,
    /// For each location whether it has a word, so that no line costs a search through the words.
    pub marks: Vec<bool>,
    pub ghost whole: { vec_len marks ≡ 2000 },
}

impl DrumWords {
    ghost use Rattle.std.specs.Prelude.{ℕ, ◌+◌, ◌<◌, ◌≤◌, ◌↔◌, List, [], ◌∷◌, ◌++◌, length, OnOk};
    ghost use Rattle.std.specs.Prelude.{IfOk, IsTrue, Contains, slice_range, true};
    ghost use Rattle.read_replays.specs.InputsOfLines.{HoldWords};
    ghost use Rattle.read_replays.specs.InputsText.{placed};

    /// No words.
    pub fn new(alloc: Global) -> Result<DrumWords, AllocError>
        ensures { IfOk result (λ drum. HoldWords drum []) }
    {
        Ok(DrumWords {
            words: Vec::new(alloc),
            marks: vec![in alloc; false; usize::from(Location::DRUM)]?,
        })
    }

    /// Whether one of the `count` locations from `first` on has a word.
    pub fn has_any(&self, first: u16, count: usize) -> bool
        requires { first + count ≤ 2000 }
        ensures { IsTrue result
            ↔ Contains (slice_range self.now.marks.items first (first + count)) true }
    {
        let first = usize::from(first);
        self.marks[first..first + count].contains(&true)
    }

    /// Gives a location a word.
    fn push(&mut self, number: u16, word: Word) -> Result<(), AllocError>
        requires { number < 2000 }
        ensures { OnOk result ((given : List (ℕ × Word)) → HoldWords self.old given
            → HoldWords self.new (given ++ (number, word) ∷ [])) }
    {
        self.words.push((Location { number }, word))?;
        self.marks[usize::from(number)] = true;
        Ok(())
    }

    /// Gives consecutive locations words.
    pub fn give(&mut self, first: u16, words: &[Word]) -> Result<(), AllocError>
        requires { first + length words.now ≤ 2000 }
        ensures { OnOk result ((given : List (ℕ × Word)) → HoldWords self.old given
            → HoldWords self.new (given ++ placed first words.now)) }
    {
        for (place, word) in words.iter().enumerate() {
            self.push(first + place as u16, *word)?;
        }
        Ok(())
    }
}
