ghost use Rattle.std.specs.Prelude.{◌≡◌, ◌≢◌, ℕ, ◌+◌, ◌*◌, ◌<◌, ◌≤◌, ◌^◌, IfSome, IfNone};

use crate::spaced::read_words;
use base_words::Word;
use base_words::numeral::read_digits;

/// The most words on a card. (A line with eight is as long as a line may be, `Deck::LINE`, and no
/// card; one with nine is too long.)
const WORDS: usize = 7;

/// A card of a deck: words for consecutive locations.
#[derive(Clone, Copy)]
pub struct Card {
    /// Where the first word goes, four digits.
    pub address: u16,
    /// The words, and behind them +0.
    pub words: [Word; WORDS],
    /// How many words there are.
    pub len: usize,
    pub ghost four: { address < 10 ^ 4 },
    pub ghost some: { 1 ≤ len },
    pub ghost seven: { len ≤ 7 },
}

/// How many words a card of `bytes` bytes has, 1 to 7; `None` where no card has that length.
fn count_words(bytes: usize) -> Option<usize>
    ensures found { IfSome result (λ n. (bytes ≡ 4 + 12 * n) × (1 ≤ n) × (n ≤ 7)) }
    ensures none { IfNone result ((n : ℕ) → 1 ≤ n → n ≤ 7 → bytes ≢ 4 + 12 * n) }
{
    let count = bytes / 12;
    if bytes % 12 == 4 && 1 <= count && count <= WORDS {
        Some(count)
    } else {
        None
    }
}

impl Card {
    ghost use Rattle.std.specs.Prelude.{List, take};
    ghost use Rattle.read_decks.specs.DeckText as text;

    /// The card that a line spells: four digits, and from one to seven words with a space before
    /// each.
    pub fn read(line: &[u8]) -> Option<Card>
        ensures found { IfSome result (λ card.
            text.IsLine line.now (text.card card.address (take card.len card.words))) }
        ensures none { IfNone result ((n : ℕ) (words : List Word)
            → ¬ text.IsLine line.now (text.card n words)) }
    {
        let Some(len) = count_words(line.len()) else {
            return None;
        };
        let Some(address) = read_digits(&line[..4]) else {
            return None;
        };
        let blank = Word {
            minus: false,
            digits: 0,
        };
        let mut words = [blank; WORDS];
        if !read_words(&line[4..], &mut words[..len]) {
            return None;
        }
        Some(Card {
            address: address as u16,
            words,
            len,
        })
    }

    /// Its words, in order.
    pub fn words(&self) -> &[Word]
        ensures { result.now ≡ take self.now.len self.now.words }
    {
        &self.words[..self.len]
    }
}
