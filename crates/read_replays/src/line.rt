ghost use Rattle.std.specs.Prelude.{◌≡◌, ◌≢◌, ℕ, ◌+◌, ◌<◌, ◌≤◌, [], ◌∷◌, ◌++◌, Bool, List, length};
ghost use Rattle.std.specs.Prelude.{take, IfSome, IfNone, IsTrue, ◌↔◌};
ghost use Rattle.base_words.specs.Word.{spaced};
ghost use Rattle.read_replays.specs.InputsText as text;
ghost use Rattle.read_replays.specs.Said.{said};

use crate::digits::read_wait;
use crate::key::behind;
use crate::setting::Setting;
use base_words::{Location, Word};
use machine_steps::Card;
use read_decks::DeckCard;
use read_decks::spaced::read_words;

/// How many words a card has.
const WORDS: usize = 10;

/// A line of inputs.
#[derive(Clone, Copy)]
pub enum Line {
    /// `*` and any bytes.
    Comment,
    /// A setting.
    Setting(Setting),
    /// Words for drum locations, written as a card of a deck.
    Words(DeckCard),
    /// A card for the card reader.
    Card(Card),
    /// How long the card machine keeps the machine waiting, in word times.
    Wait(u32),
}

/// Whether the bytes are a comment.
fn is_comment(bytes: &[u8]) -> bool
    ensures { IsTrue result ↔ text.IsLine bytes.now text.comment }
{
    bytes.first() == Some(&b'*')
}

/// The words behind the mark of a card, a space before each.
fn read_ten(line: &[u8], mark: &[u8]) -> Option<[Word; WORDS]>
    ensures found { IfSome result (λ words. line.now ≡ mark.now ++ spaced words) }
    ensures none { IfNone result ((words : List Word) → length words ≡ 10
        → line.now ≢ mark.now ++ spaced words) }
{
    let Some(text) = behind(line, mark) else {
        return None;
    };
    if text.len() != 12 * WORDS {
        return None;
    }
    let blank = Word {
        minus: false,
        digits: 0,
    };
    let mut words = [blank; WORDS];
    if read_words(text, &mut words) {
        Some(words)
    } else {
        None
    }
}

/// Whether two cards of words for drum locations have a location in common.
fn have_common(card: &DeckCard, other: &DeckCard) -> bool
    ensures { IsTrue result ↔ ((location : ℕ)
        × (card.now.address ≤ location)
        × (location < card.now.address + length (take card.now.len card.now.words))
        × (other.now.address ≤ location)
        × (location < other.now.address + length (take other.now.len other.now.words))) }
{
    let (first, second) = (usize::from(card.address), usize::from(other.address));
    let (end, other_end) = (first + card.words().len(), second + other.words().len());
    first.max(second) < end.min(other_end)
}

/// The card that a line spells.
fn read_card(line: &[u8]) -> Option<Card>
    ensures found { IfSome result (λ card. text.IsLine line.now (text.card card.load card.words)) }
    ensures none { IfNone result ((load : Bool) (words : List Word)
        → ¬ text.IsLine line.now (text.card load words)) }
{
    if let Some(words) = read_ten(line, b"CARD") {
        return Some(Card { words, load: false });
    }
    match read_ten(line, b"LOAD") {
        Some(words) => Some(Card { words, load: true }),
        None => None,
    }
}

impl Line {
    /// What the bytes spell; `None` where they are no line of inputs.
    pub fn read(bytes: &[u8]) -> Option<Line>
        ensures found { IfSome result (λ line. text.IsLine bytes.now (said line)) }
        ensures none { IfNone result ((line : text.Line) → ¬ text.IsLine bytes.now line) }
    {
        if is_comment(bytes) {
            return Some(Line::Comment);
        }
        if let Some(setting) = Setting::read(bytes) {
            return Some(Line::Setting(setting));
        }
        if let Some(words) = DeckCard::read(bytes) {
            return Some(Line::Words(words));
        }
        if let Some(card) = read_card(bytes) {
            return Some(Line::Card(card));
        }
        match read_wait(bytes) {
            Some(wait) => Some(Line::Wait(wait)),
            None => None,
        }
    }

    /// Whether it gives a word to a location past the drum.
    pub fn is_past_drum(&self) -> bool
        ensures { IsTrue result ↔ text.IsPastDrum (said self.now) }
    {
        match self {
            Line::Words(card) => {
                usize::from(card.address) + card.words().len() > usize::from(Location::DRUM)
            }
            _ => false,
        }
    }

    /// Whether it says again what an earlier line says: the same setting, or a word for one of the
    /// locations that the earlier line gives words.
    pub fn repeats(&self, earlier: &Line) -> bool
        ensures { IsTrue result ↔ text.Repeats (said earlier.now ∷ []) (said self.now) }
    {
        match (self, earlier) {
            (Line::Setting(setting), Line::Setting(other)) => setting.is_of(other),
            (Line::Words(card), Line::Words(other)) => have_common(card, other),
            _ => false,
        }
    }
}
