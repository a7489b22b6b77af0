//! A source of files that are held already.

ghost use Rattle.std.specs.Prelude.{◌≡◌, None};

use crate::devices::Tap;
use drum_core::{Input, Reading};
use drum_tool::Source;

/// Files, each by its name. It takes no memory, and no contract tells what they hold.
#[derive(Drop)]
pub(crate) struct Shelf<'a> {
    files: &'a [(&'a str, Tap<'a>)],
    /// How often the text was read that was read most.
    pub(crate) calls: u64,
    /// How many bytes the text gave that gave most.
    pub(crate) bytes: u128,
    /// How many reads failed.
    pub(crate) failures: u64,
}

impl<'a> Shelf<'a> {
    /// These files, of which nothing was read.
    pub(crate) fn of(files: &'a [(&'a str, Tap<'a>)]) -> Shelf<'a>
        ensures { result.failures ≡ 0 }
    {
        Shelf {
            files,
            calls: 0,
            bytes: 0,
            failures: 0,
        }
    }
}

impl<'a> Source for Shelf<'a> {
    type Text = Reading<Tap<'a>>;

    ghost files = { λ _ _ _. None };

    ghost failed = { λ shelf. shelf.failures };

    ghost asked = { λ _. None };

    fn fetch(&mut self, name: &str) -> Option<Reading<Tap<'a>>> {
        for (known, text) in self.files {
            if *known == name {
                return Some(Reading::new(*text));
            }
        }
        None
    }

    fn failures(&self) -> u64 {
        self.failures
    }

    fn close(&mut self, text: Reading<Tap<'a>>) {
        self.calls = self.calls.max(text.calls());
        self.bytes = self.bytes.max(text.bytes());
        self.failures += text.failures();
    }
}
