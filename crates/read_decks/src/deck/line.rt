ghost use Rattle.std.specs.Prelude.{ℕ, ◌<◌, ◌↔◌, IsTrue, IfSome, IfNone};
ghost use Rattle.read_decks.specs.DeckText as text;
ghost use Rattle.read_decks.specs.DeckLine.{said};

use super::card::Card;
use base_words::numeral::read_digits;

/// A line of a deck.
#[derive(Clone, Copy)]
pub enum Line {
    /// `*` and any bytes.
    Comment,
    /// `START` and the four digits of where the program starts.
    Start(u16),
    /// Words for consecutive locations.
    Card(Card),
}

/// Whether the bytes are a comment.
fn is_comment(bytes: &[u8]) -> bool
    ensures { IsTrue result ↔ text.IsLine bytes.now text.comment }
{
    bytes.first() == Some(&b'*')
}

/// Where the bytes say to start.
fn read_start(bytes: &[u8]) -> Option<u16>
    ensures found { IfSome result (λ n. text.IsLine bytes.now (text.start n)) }
    ensures none { IfNone result ((n : ℕ) → ¬ text.IsLine bytes.now (text.start n)) }
{
    if bytes.len() != 10 {
        return None;
    }
    let (word, digits) = bytes.split_at(6);
    if word != b"START ".as_slice() {
        return None;
    }
    let Some(address) = read_digits(digits) else {
        return None;
    };
    Some(address as u16)
}

impl Line {
    /// What the bytes spell; `None` where they are no line of a deck.
    pub fn read(bytes: &[u8]) -> Option<Line>
        ensures found { IfSome result (λ line. text.IsLine bytes.now (said line)) }
        ensures none { IfNone result ((line : text.Line) → ¬ text.IsLine bytes.now line) }
    {
        if is_comment(bytes) {
            return Some(Line::Comment);
        }
        if let Some(address) = read_start(bytes) {
            return Some(Line::Start(address));
        }
        match Card::read(bytes) {
            Some(card) => Some(Line::Card(card)),
            None => None,
        }
    }
}
