//! Laws of the definitions of `read_replays`.

ghost use Rattle.std.specs.Prelude.{◌≡◌, ◌≢◌, ◌↔◌, ◌⊎◌, ℕ, ◌<◌, List, [], ◌∷◌, All, AllPairs, Any};
ghost use Rattle.read_replays.specs.InputsText.{Line, IsLine, AreInputs, AreSound, IsRefused};
ghost use Rattle.read_replays.specs.InputsText.{Repeats, given_in};
ghost use Rattle.read_replays.specs.declared.fault.InputFault.{InputFault};

/// Every text is inputs, or it has its fault. (That it is not both, and has no other fault, two of
/// the laws below say.)
pub fn inputs_or_fault()
    ensures { (text : List ℕ) → ((lines : List Line) × AreInputs text lines)
        ⊎ ((fault : InputFault) × IsRefused text fault) }
{}

/// A text that is no inputs has one fault.
pub fn one_fault()
    ensures { (text : List ℕ) (fault other : InputFault) → IsRefused text fault
        → IsRefused text other → fault ≡ other }
{}

/// A text that is inputs is not refused.
pub fn not_refused()
    ensures { (text : List ℕ) (lines : List Line) (fault : InputFault) → AreInputs text lines
        → ¬ IsRefused text fault }
{}

/// A line of text says one thing, and so does a text.
pub fn one_meaning()
    ensures line { (text : List ℕ) (line other : Line) → IsLine text line → IsLine text other
        → line ≡ other }
    ensures text { (text : List ℕ) (lines others : List Line) → AreInputs text lines
        → AreInputs text others → lines ≡ others }
{}

/// A line says again what others say exactly where it says again what one of them says.
pub fn repeats_one()
    ensures { (lines : List Line) (line : Line)
        → Repeats lines line ↔ Any (λ earlier. Repeats (earlier ∷ []) line) lines }
{}

/// Sound lines give a word once at most to each location, and only to drum locations.
pub fn each_location_once()
    ensures once { (lines : List Line) → AreSound lines
        → AllPairs (λ one later. one.0 ≢ later.0) (given_in lines) }
    ensures on_drum { (lines : List Line) → AreSound lines
        → All (λ one. one.0 < 2000) (given_in lines) }
{}
