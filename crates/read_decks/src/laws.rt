//! Laws of the definitions, each the contract of a function that does nothing.

ghost use Rattle.std.specs.Prelude.{ℕ, List};
ghost use Rattle.read_decks.specs.DeckText.{Line};
ghost use Rattle.read_decks.specs.DeckText.{IsDeck, IsRefused};
ghost use Rattle.read_decks.specs.declared.deck.fault.DeckFault.{DeckFault};

/// A text that is a deck is not refused.
pub fn not_refused()
    ensures { (text : List ℕ) (lines : List Line) (fault : DeckFault) → IsDeck text lines
        → ¬ IsRefused text fault }
{}
