//! The deck that loads the drum, as its lines were read.

ghost use Rattle.std.specs.Prelude.{◌≡◌, ◌<◌, vec_len};
ghost use Rattle.read_decks.specs.ImageOfLines.{AreOfLines};

use base_words::{Kind, Location, Word};

pub mod card;
pub mod fault;
pub mod line;
pub mod line_fault;
pub mod lines;
pub mod loading;
pub mod read;

/// A word that a deck gives, and the line of the card that gives it.
#[derive(Clone, Copy, Debug, PartialEq, Eq)]
pub struct Given {
    /// The word.
    pub word: Word,
    /// The card's line, from 1.
    pub line: u16,
}

/// A deck: which words it loads onto the drum, from which cards, and where the program starts. Each
/// deck is what some lines of text say, 4000 at most.
#[derive(Debug, Drop, PartialEq, Eq)]
pub struct Deck {
    image: Vec<Option<Given>>,
    cards: Vec<u16>,
    start: Location,
    ghost whole: { vec_len image ≡ 2000 },
    ghost on_drum: { start.number < 2000 },
    ghost of_lines: { ∥ AreOfLines image.items cards.items start ∥₁ },
}

impl Deck {
    ghost use Rattle.std.specs.Prelude.{◌≤◌, ◌∷◌, [], List, length, All, Contains, IfSome};
    ghost use Rattle.std.specs.List.Sorted.{IsStrictlyIncreasing};
    ghost use Rattle.read_decks.specs.DeckText.{Line, given_at, given_from, loads_of, card_of};
    ghost use Rattle.read_decks.specs.DeckText.{cards_from, starts};
    ghost use Rattle.read_decks.specs.ImageOfLines.{seen};
    ghost use Rattle.read_decks.specs.DeckOfLines.{IsDeckOf};
    ghost use Rattle.read_decks.specs.InDeck.{card_in, cards_in, given_in, loads_in, start_in};

    /// The most lines of a deck's text.
    pub const LINES: u16 = 4000;

    /// The most bytes of a line, without its line feed.
    pub const LINE: usize = 100;

    /// The most bytes of a text.
    pub const BYTES: usize = Deck::LINES as usize * (Deck::LINE + 1);

    /// What the deck gives the location; `None` off the drum, and where the deck loads nothing.
    fn given(&self, location: Location) -> Option<Given>
        ensures held { result ≡ given_in self.now location.number }
        ensures told { (lines : List Line) → IsDeckOf self.now lines
            → result ≡ seen (given_at (given_from 1 lines) location.number) }
    {
        match location.kind() {
            Kind::Drum => self.image[location.number() as usize],
            _ => None,
        }
    }

    /// The word that the deck loads into the location; `None` where it loads none.
    pub fn word(&self, location: Location) -> Option<Word>
        ensures held { result ≡ loads_in self.now location.number }
        ensures told { (lines : List Line) → IsDeckOf self.now lines
            → result ≡ loads_of lines location.number }
    {
        let given = self.given(location)?;
        Some(given.word)
    }

    /// The line of the card that loads the location, from 1 to 4000; `None` where no card does.
    pub fn card_of(&self, location: Location) -> Option<u16>
        ensures held { result ≡ card_in self.now location.number }
        ensures among { IfSome result (Contains (cards_in self.now)) }
        ensures numbered { IfSome result (λ line. (1 ≤ line) × (line ≤ 4000)) }
        ensures told { (lines : List Line) → IsDeckOf self.now lines
            → result ≡ card_of lines location.number }
    {
        let given = self.given(location)?;
        Some(given.line)
    }

    /// The numbers of the lines that are cards, ascending, each from 1 to 4000.
    pub fn cards(&self) -> &[u16]
        ensures held { result.now ≡ cards_in self.now }
        ensures numbered { All (λ line. (1 ≤ line) × (line ≤ 4000)) result.now }
        ensures ascending { IsStrictlyIncreasing result.now }
        ensures few { length result.now ≤ 4000 }
        ensures told { (lines : List Line) → IsDeckOf self.now lines
            → result.now ≡ cards_from 1 lines }
    {
        &self.cards
    }

    /// The location of the program's first instruction, on the drum.
    pub fn start(&self) -> Location
        ensures held { result.number ≡ start_in self.now }
        ensures on_drum { result.number < 2000 }
        ensures begins { (lines : List Line) → IsDeckOf self.now lines
            → starts lines ≡ result.number ∷ [] }
    {
        self.start
    }
}
