//! The numbers that a line is written with.

ghost use Rattle.std.specs.Prelude.{ℕ, ◌<◌, IfSome, IfNone};
ghost use Rattle.read_replays.specs.InputsText as text;

use crate::key::behind;
use base_notes::Entry;
use base_words::REVOLUTION;
use base_words::numeral::read_digits;

/// The angle of a line that states the start angle, 0 to 49.
pub fn read_angle(line: &[u8]) -> Option<u8>
    ensures found { IfSome result (λ n. text.IsLine line.now (text.angle n)) }
    ensures none { IfNone result ((n : ℕ) → ¬ text.IsLine line.now (text.angle n)) }
{
    let Some(digits) = behind(line, b"ANGLE ") else {
        return None;
    };
    if digits.len() != 2 {
        return None;
    }
    match read_digits(digits) {
        Some(angle) if angle < REVOLUTION => Some(angle as u8),
        _ => None,
    }
}

/// How long a line keeps the machine waiting, in word times.
pub fn read_wait(line: &[u8]) -> Option<u32>
    ensures found { IfSome result (λ n. text.IsLine line.now (text.wait n)) }
    ensures none { IfNone result ((n : ℕ) → ¬ text.IsLine line.now (text.wait n)) }
{
    let Some(digits) = behind(line, b"WAIT ") else {
        return None;
    };
    if digits.is_empty() || digits.len() > 7 {
        return None;
    }
    match read_digits(digits) {
        Some(wait) if wait <= Entry::LONGEST => Some(wait as u32),
        _ => None,
    }
}
