//! Laws of the definitions of `read_decks`.

ghost use Rattle.std.specs.Prelude.{◌≡◌, ℕ, ◌<◌, ◌≤◌, ◌⊎◌, List, [], ◌∷◌, length, Some, Contains};
ghost use Rattle.std.specs.List.Sorted.{IsStrictlyIncreasing};
ghost use Rattle.read_decks.specs.DeckText.{Given, Line, given_at, loads_of, starts, AreDistinct};
ghost use Rattle.read_decks.specs.DeckText.{IsDeck, IsRefused, Say};
ghost use Rattle.read_decks.specs.DeckOfLines.{IsDeckOf};
ghost use Rattle.read_decks.specs.InDeck.{card_in, cards_in, loads_in, start_in};
ghost use Rattle.read_decks.specs.declared.deck.Deck.{Deck};
ghost use Rattle.read_decks.specs.declared.deck.fault.DeckFault.{DeckFault};
ghost use Rattle.base_words.specs.declared.word.Word.{Word};

/// Every text is a deck, or it has its fault; and it is the deck of one list of lines. (That it
/// isn't both says the law `not_refused` of `read_decks`, and that it has no other fault the next
/// one.)
pub fn deck_or_fault()
    ensures either { (text : List ℕ) → ((lines : List Line) × IsDeck text lines)
        ⊎ ((fault : DeckFault) × IsRefused text fault) }
    ensures one { (text : List ℕ) (lines others : List Line) → IsDeck text lines
        → IsDeck text others → lines ≡ others }
{}

/// A text that is no deck has one fault.
pub fn one_fault()
    ensures { (text : List ℕ) (fault other : DeckFault) → IsRefused text fault
        → IsRefused text other → fault ≡ other }
{}

/// The image of a deck is a function: what is given to a location is what is found there.
pub fn one_word()
    ensures { (given : List Given) (one : Given) → AreDistinct given → Contains given one
        → given_at given one.location ≡ Some one }
{}

/// What a deck loads is what its lines say, and it starts where they say.
pub fn loads_what_is_said()
    ensures loads { (deck : Deck) (lines : List Line) (location : ℕ) → IsDeckOf deck lines
        → loads_in deck location ≡ loads_of lines location }
    ensures on_drum { (deck : Deck) (location : ℕ) (word : Word)
        → loads_in deck location ≡ Some word → location < 2000 }
    ensures starts { (deck : Deck) (lines : List Line) → IsDeckOf deck lines
        → starts lines ≡ start_in deck ∷ [] }
{}

/// Every deck is what some lines of text say, 4000 at most. The lines of its cards ascend, and the
/// line of each word that it loads is among them.
pub fn decks_are_of_lines()
    ensures lines { (deck : Deck)
        → ∥ ((texts : List (List ℕ)) × (lines : List Line) × Say texts lines × IsDeckOf deck lines
        × (length lines ≤ 4000)) ∥₁ }
    ensures cards { (deck : Deck) → IsStrictlyIncreasing (cards_in deck) }
    ensures among { (deck : Deck) (location line : ℕ) → card_in deck location ≡ Some line
        → Contains (cards_in deck) line }
{}
