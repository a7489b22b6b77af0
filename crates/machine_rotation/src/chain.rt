//! Laws of chains of waits, over the laws of [`Clockwork`] alone, and of single waits: each is the
//! contract of a function that does nothing.

ghost use Rattle.std.specs.Prelude.{◌≡◌, ℕ, ◌+◌, ◌*◌, ◌%◌, ◌<◌, ◌≤◌};
ghost use Rattle.machine_rotation.specs.declared.at_angle.AtAngle.{AtAngle as Angle};
ghost use Rattle.machine_rotation.specs.declared.at_parity.AtParity.{AtParity as Parities};
ghost use Rattle.machine_rotation.specs.declared.seek.Seek.{Seek as Sought};

use crate::at_angle::AtAngle;
use crate::at_parity::AtParity;
use crate::clockwork::Clockwork;
use crate::seek::Seek;

/// Of one wait and then another, what begins later never ends earlier.
pub fn later_never_earlier<A: Clockwork, B: Clockwork>()
    ensures { (first : A) (second : B) (s t : ℕ) → s ≤ t
        → B.moment second (A.moment first s) ≤ B.moment second (A.moment first t) }
{}

/// With a longer delay between two waits, the second never ends earlier.
pub fn longer_never_earlier<A: Clockwork, B: Clockwork>()
    ensures { (first : A) (second : B) (t shorter longer : ℕ) → shorter ≤ longer
        → B.moment second (A.moment first t + shorter)
        ≤ B.moment second (A.moment first t + longer) }
{}

/// A wait that begins when it is over takes no time: for an angle, for a parity, for a location.
pub fn over_when_over()
    ensures angles { (at : Angle) (t : ℕ) → let there = ⟦<AtAngle as Clockwork>⟧.moment at in
        there (there t) ≡ there t }
    ensures parities { (at : Parities) (t : ℕ) → let there = ⟦<AtParity as Clockwork>⟧.moment at in
        there (there t) ≡ there t }
    ensures locations { (seek : Sought) (t : ℕ) → let there = ⟦<Seek as Clockwork>⟧.moment seek in
        there (there t) ≡ there t }
{}

/// A wait for an angle is over at that angle, whenever it begins. So two of them are over whole
/// revolutions apart, and one that begins just behind its angle takes longest.
pub fn over_at_its_angle()
    ensures angle { (at : Angle) (t : ℕ) → ⟦<AtAngle as Clockwork>⟧.moment at t % 50 ≡ at.angle }
    ensures apart { (at : Angle) (s t : ℕ) → let there = ⟦<AtAngle as Clockwork>⟧.moment at in
        there s ≤ there t → (k : ℕ) × (there s + 50 * k ≡ there t) }
    ensures behind { (at : Angle) (t : ℕ) → t % 50 ≡ (at.angle + 1) % 50
        → ⟦<AtAngle as Clockwork>⟧.moment at t ≡ t + 49 }
{}

/// The wait for a drum word is that for its angle.
pub fn sought_at_its_angle()
    ensures { (seek : Sought) (at : Angle) (t : ℕ) → seek.location.number < 2000
        → at.angle ≡ seek.location.number % 50
        → ⟦<Seek as Clockwork>⟧.moment seek t ≡ ⟦<AtAngle as Clockwork>⟧.moment at t }
{}
