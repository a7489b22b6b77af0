//! How many places a shift goes.

ghost use Rattle.std.specs.Prelude.{◌≡◌, ◌≤◌};
ghost use Rattle.machine_steps.specs.Effect.{places as places_of};

use base_words::Shift;

/// How many places an instruction with this D shifts, 0 to 10.
pub fn places(shift: Shift, d: u16) -> u32
    ensures value { result ≡ places_of shift d }
    ensures ten { result ≤ 10 }
{
    let digit = u32::from(d % 10);
    match shift {
        Shift::Right | Shift::Left => digit,
        Shift::Round if digit == 0 => 10,
        Shift::Round => digit,
    }
}
