//! Laws of the definitions of `read_faults`.

ghost use Rattle.std.specs.Prelude.{◌≡◌, ℕ, List, [], ◌∷◌};
ghost use Rattle.read_decks.specs.declared.deck.fault.DeckFault.{DeckFault};
ghost use Rattle.read_replays.specs.declared.fault.InputFault.{InputFault};
ghost use Rattle.read_replays.specs.InputsText.{AreInputs};
ghost use Rattle.read_replays.specs.InputsText as input_lines;
ghost use Rattle.read_faults.specs.InputFaults.{AreInputFaults};
ghost use Rattle.read_decks.specs.DeckText.{Line, IsDeck, IsRefused};
ghost use Rattle.read_faults.specs.DeckFaults.{AreDeckFaults};
ghost use Rattle.read_faults.specs.declared.placed_fault.PlacedFault.{PlacedFault};

/// The first of all faults is the one that a reader refuses the deck for, and only a text that is a
/// deck has none.
pub fn deck_faults_begin()
    ensures first { (text : List ℕ) (placed : PlacedFault DeckFault)
        (others : List (PlacedFault DeckFault))
        → AreDeckFaults text (placed ∷ others) → IsRefused text placed.fault }
    ensures none { (text : List ℕ) → AreDeckFaults text []
        → (lines : List Line) × IsDeck text lines }
{}

/// A text has one list of faults.
pub fn one_list_of_faults()
    ensures { (text : List ℕ) (faults others : List (PlacedFault DeckFault))
        → AreDeckFaults text faults → AreDeckFaults text others → faults ≡ others }
{}

/// Of inputs likewise: the first fault is the one that a reader refuses them for, only a text that
/// is inputs has none, and a text has one list of faults.
pub fn input_faults_begin()
    ensures first { (text : List ℕ) (placed : PlacedFault InputFault)
        (others : List (PlacedFault InputFault))
        → AreInputFaults text (placed ∷ others) → input_lines.IsRefused text placed.fault }
    ensures none { (text : List ℕ) → AreInputFaults text []
        → (lines : List input_lines.Line) × AreInputs text lines }
    ensures one { (text : List ℕ) (faults others : List (PlacedFault InputFault))
        → AreInputFaults text faults → AreInputFaults text others → faults ≡ others }
{}
