//! Words that are written with a space before each.

ghost use Rattle.std.specs.Prelude.{◌≡◌, ◌≢◌, ◌*◌, ◌∷◌, List, length, IfSome, IfNone, IsTrue};
ghost use Rattle.std.specs.Prelude.{IsFalse};
ghost use Rattle.base_words.specs.Word.{spelling, spaced};

use base_words::Word;

/// The bytes of a word and of the space before it.
const BYTES: usize = 12;

/// The word that twelve bytes spell, with a space before it.
fn read_spaced(text: &[u8]) -> Option<Word>
    requires { length text.now ≡ 12 }
    ensures found { IfSome result (λ word. text.now ≡ 32 ∷ spelling word) }
    ensures none { IfNone result ((word : Word) → text.now ≢ 32 ∷ spelling word) }
{
    if text[0] != b' ' {
        return None;
    }
    Word::read(&text[1..])
}

/// Reads words that are written with a space before each, as many as `words` has room for, and
/// returns whether the text spells these; where it doesn't, some of `words` may have been changed.
pub fn read_words(text: &[u8], words: &mut [Word]) -> bool
    requires { length text.now ≡ 12 * length words.old }
    ensures found { IsTrue result → text.now ≡ spaced words.new }
    ensures none { IsFalse result → (others : List Word) → length others ≡ length words.old
        → text.now ≢ spaced others }
{
    for place in 0..words.len() {
        let at = BYTES * place;
        let Some(word) = read_spaced(&text[at..at + BYTES]) else {
            return false;
        };
        words[place] = word;
    }
    true
}
