//! A text that is read line by line: of a deck, or of the inputs of a replay.

ghost use Rattle.std.specs.Prelude.{◌≡◌, ℕ, ◌+◌, ◌<◌, ◌^◌, List, length, IfOk};
ghost use Rattle.read_decks.specs.Lines.{lines_of};
ghost use Rattle.read_decks.specs.Taking.{Rules, HaveTaken, IsNumber, IsTaken};
ghost use Rattle.read_decks.specs.Taking.{GoesOn};

use crate::deck::lines::Lines;
use std::alloc::AllocError;

/// What takes lines, one after the other, and holds what they say.
pub trait Taking {
    /// The fault of a line.
    type Fault: Drop;

    /// What a line may say, which lines are sound, and what is held of them.
    ghost rules: { Rules Self Self.Fault };

    /// Takes the next line, of this number: as a comment where it has a fault, which is the answer.
    fn take(&mut self, bytes: &[u8], number: u16) -> Result<Option<Self::Fault>, AllocError>
        requires { IsNumber rules self.old number }
        ensures { IfOk result (IsTaken rules self.old self.new bytes.now number) };
}

/// A text of which some lines have been taken.
#[derive(Drop)]
pub struct Reading<'a, T> {
    /// What has taken them.
    pub taking: T,
    lines: Lines<'a>,
    number: u16,
    ghost few: { number + length (lines_of lines.rest.now) < 2 ^ 16 },
}

impl<'a, T: Taking> Reading<'a, T> {
    /// A text of which no line has been taken.
    pub fn new(taking: T, text: &'a [u8]) -> Reading<'a, T>
        requires { length (lines_of text.now) < 2 ^ 16 }
        ensures taking { result.taking ≡ taking }
        ensures left { result.lines.rest.now ≡ text.now }
        ensures none { result.number ≡ 0 }
    {
        Reading {
            taking,
            lines: Lines { rest: text },
            number: 0,
        }
    }

    /// Takes lines up to the next one that has a fault, which is the answer.
    pub fn next_fault(&mut self) -> Result<Option<T::Fault>, AllocError>
        requires { HaveTaken T.rules self.old.taking self.old.number }
        ensures { IfOk result (GoesOn T.rules self.old.taking self.new.taking
            self.old.number self.new.number
            (lines_of self.old.lines.rest.now) (lines_of self.new.lines.rest.now)) }
    {
        while let Some(line) = self.lines.next() {
            self.number += 1;
            if let Some(fault) = self.taking.take(line, self.number)? {
                return Ok(Some(fault));
            }
        }
        Ok(None)
    }
}
