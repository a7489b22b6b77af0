//! How many ends of hops were made.

ghost use Rattle.std.specs.Prelude.{◌≡◌, ◌+◌, ◌<◌, ◌^◌};

pub mod end;

use std::marker::Model;
use std::sync::ledger::{Blank, Book, Ledger, Share};

/// How many ends of hops were made, as a number and on a ledger, where as many stand. There is one
/// of each ledger; it can't be copied nor set back, and only the one maker of ends counts with it.
#[derive(Drop)]
pub struct Steps<L: Ledger> {
    made: u64,
    book: Book<L>,
    share: Share<L>,
}

impl<L: Ledger> Model for Steps<L> {
    ghost use Rattle.std.specs.Prelude.{◌≡◌, ℕ, ◌<◌};

    ghost Value = { ℕ };

    ghost view = { λ steps. steps.made };

    ghost invariant = { λ steps. (steps.book.total ≡ steps.made) × (0 < steps.share.parts) };
}

impl<L: Ledger> Steps<L> {
    /// None yet, on a ledger that nothing was counted on.
    pub fn begin(blank: Blank) -> Steps<L>
        requires name { blank.name ≡ L.name }
        requires parts { blank.parts ≡ L.parts }
        requires some { 0 < L.parts }
        ensures { result ≡ 0 }
    {
        let (book, share) = blank.open();
        Steps {
            made: 0,
            book,
            share,
        }
    }

    /// How many.
    pub fn made(&self) -> u64
        ensures { result ≡ self.now }
    {
        self.made
    }

    /// One more. The maker of ends alone may say so.
    fn tick(&mut self)
        requires { self.old < 2 ^ 62 }
        ensures { self.new ≡ self.old + 1 }
    {
        self.made += 1;
        self.book.add(&mut self.share, 1);
    }
}
