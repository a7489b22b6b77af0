//! A deck, loaded line by line, or why a line is refused. What a line may be is told by `line` and
//! `card`; a line that is too long is refused in `read`, before it comes here.

ghost use Rattle.std.specs.Prelude.{◌≡◌, ℕ, ◌+◌, ◌<◌, ◌≤◌, ◌⊎◌, vec_len, length, take, slice_get};
ghost use Rattle.std.specs.Prelude.{IfOk, IfSome, IfNone};
ghost use Rattle.std.specs.Option.{ForSome};
ghost use Rattle.read_decks.specs.FirstLoaded.{IsFirstLoaded};

use super::card::Card;
use super::fault::DeckFault;
use super::line::Line;
use super::line_fault::LineFault;
use super::{Deck, Given};
use crate::reading::Taking;
use base_words::{Location, Word};
use std::alloc::{AllocError, Global};

/// Where the lines say to start, and the number of the line that does.
#[derive(Clone, Copy)]
pub struct Start {
    location: Location,
    line: u16,
}

/// A deck of which some lines have been read.
#[derive(Drop)]
pub struct Loading {
    image: Vec<Option<Given>>,
    cards: Vec<u16>,
    start: Option<Start>,
    ghost whole: { vec_len image ≡ 2000 },
    ghost on_drum: { ForSome start (λ start. start.location.number < 2000) },
}

impl Loading {
    ghost use Rattle.std.specs.Prelude.{[], List, IfErr};
    ghost use Rattle.read_decks.specs.DeckText as text;
    ghost use Rattle.read_decks.specs.DeckOfLines.{IsDeckOf};
    ghost use Rattle.read_decks.specs.LinesSoFar.{HoldsLines, deck_rules};
    ghost use Rattle.read_decks.specs.Taking.{IsTaken};

    /// A deck of which no line has been read.
    pub fn new(alloc: Global) -> Result<Loading, AllocError>
        ensures { IfOk result (λ loading. HoldsLines loading []) }
    {
        Ok(Loading {
            image: vec![in alloc; None; Location::DRUM as usize]?,
            cards: Vec::new(alloc),
            start: None,
        })
    }

    fn start_at(&mut self, address: u16, line: u16) -> Option<LineFault<DeckFault>>
        ensures { (bytes : List ℕ) → text.IsLine bytes (text.start address)
            → IsTaken deck_rules self.old self.new bytes line result }
    {
        if address >= Location::DRUM {
            return Some(LineFault::alone(DeckFault::PastDrum(line)));
        }
        if let Some(start) = self.start {
            return Some(LineFault {
                fault: DeckFault::TwoStarts(line),
                earlier: Some(start.line),
            });
        }
        self.start = Some(Start {
            location: Location { number: address },
            line,
        });
        None
    }

    fn load(&mut self, card: &Card, line: u16) -> Result<Option<LineFault<DeckFault>>, AllocError>
        ensures { IfOk result (λ outcome. (bytes : List ℕ)
            → text.IsLine bytes (text.card card.now.address (take card.now.len card.now.words))
            → IsTaken deck_rules self.old self.new bytes line outcome) }
    {
        let words = card.words();
        if card.address as usize + words.len() > Location::DRUM as usize {
            return Ok(Some(LineFault::alone(DeckFault::PastDrum(line))));
        }
        // The card is looked at whole before it gives anything: a faulty one gives nothing.
        if let Some((location, given)) = first_given(&self.image, card.address, words) {
            return Ok(Some(LineFault {
                fault: DeckFault::Twice(location),
                earlier: Some(given.line),
            }));
        }
        self.cards.push(line)?;
        put_words(&mut self.image, card.address, words, line);
        Ok(None)
    }

    /// The deck, once all lines have been taken.
    pub fn finish(self) -> Result<Deck, DeckFault>
        requires { (texts : List (List ℕ)) × (lines : List text.Line) × text.Say texts lines
            × HoldsLines self lines × (length lines ≤ 4000) }
        ensures ok { IfOk result (λ deck. (lines : List text.Line) → HoldsLines self lines
            → IsDeckOf deck lines) }
        ensures err { IfErr result (λ fault. (fault ≡ DeckFault.NoStart)
            × ((lines : List text.Line) → HoldsLines self lines → text.starts lines ≡ [])) }
    {
        match self.start {
            None => Err(DeckFault::NoStart),
            Some(start) => Ok(Deck {
                image: self.image,
                cards: self.cards,
                start: start.location,
            }),
        }
    }
}

impl Taking for Loading {
    type Fault = LineFault<DeckFault>;

    ghost use Rattle.read_decks.specs.LinesSoFar.{deck_rules};

    ghost rules = { deck_rules };

    fn take(
        &mut self,
        bytes: &[u8],
        number: u16,
    ) -> Result<Option<LineFault<DeckFault>>, AllocError> {
        match Line::read(bytes) {
            None => Ok(Some(LineFault::alone(DeckFault::Card(number)))),
            Some(Line::Comment) => Ok(None),
            Some(Line::Start(address)) => Ok(self.start_at(address, number)),
            Some(Line::Card(card)) => self.load(&card, number),
        }
    }
}

/// The first location that has a word already, of those that a card gives words, and that word.
fn first_given(image: &[Option<Given>], first: u16, words: &[Word]) -> Option<(Location, Given)>
    requires drum { length image.now ≡ 2000 }
    requires within { first + length words.now ≤ 2000 }
    ensures found { IfSome result (λ found.
        IsFirstLoaded image.now first (length words.now) found.0.number) }
    ensures given { IfSome result (λ found.
        slice_get image.now found.0.number ≡ Some (Some found.1)) }
    ensures none { IfNone result ((n : ℕ) → first ≤ n → n < first + length words.now
        → slice_get image.now n ≡ Some None) }
{
    for place in 0..words.len() {
        let number = first + place as u16;
        if let Some(given) = image[number as usize] {
            return Some((Location { number }, given));
        }
    }
    None
}

/// Puts words into consecutive locations.
fn put_words(image: &mut Vec<Option<Given>>, first: u16, words: &[Word], line: u16)
    requires drum { vec_len image.old ≡ 2000 }
    requires within { first + length words.now ≤ 2000 }
    ensures drum { vec_len image.new ≡ 2000 }
    ensures put { (k : ℕ) (word : Word) → slice_get words.now k ≡ Some word
        → slice_get image.new.items (first + k)
        ≡ Some (Some (record { word = word; line = line })) }
    ensures others { (n : ℕ) → (n < first) ⊎ (first + length words.now ≤ n)
        → slice_get image.new.items n ≡ slice_get image.old.items n }
{
    for (place, word) in words.iter().enumerate() {
        image[(first + place as u16) as usize] = Some(Given { word: *word, line });
    }
}
