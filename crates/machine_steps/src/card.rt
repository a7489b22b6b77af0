ghost use Rattle.std.specs.Prelude.{◌≡◌, length};

use base_words::Word;

/// A card that the card reader holds: ten words and a load mark.
///
/// Source: the IBM 650 Manual of Operation, but for its panel wiring, which isn't modelled.
#[derive(Clone, Copy, Debug, PartialEq, Eq)]
pub struct Card {
    /// The words, in order.
    pub words: [Word; 10],
    /// Whether it is a load card: 70 goes on at D after one, and at I after any other.
    pub load: bool,
    pub ghost ten: { length words ≡ 10 },
}
