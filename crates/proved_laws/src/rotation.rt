//! Laws of the definitions of `machine_rotation`.

ghost use Rattle.std.specs.Prelude.{ℕ, ◌<◌};
ghost use Rattle.base_words.specs.declared.parity.Parity.{Parity};
ghost use Rattle.machine_rotation.specs.Available.{is_angle, has_parity, is_available};
ghost use Rattle.machine_rotation.specs.Moment.{IsFirst, first};

/// A moment that is found by looking at one after the other is the least at or after the clock
/// whose angle serves: for an angle, for a parity, and for each location.
pub fn first_is_least()
    ensures angles { (angle clock : ℕ) → angle < 50
        → IsFirst (is_angle angle) clock (first (is_angle angle) clock) }
    ensures parities { (parity : Parity) (clock : ℕ)
        → IsFirst (has_parity parity) clock (first (has_parity parity) clock) }
    ensures locations { (location clock : ℕ)
        → IsFirst (is_available location) clock (first (is_available location) clock) }
{}
