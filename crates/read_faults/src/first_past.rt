ghost use Rattle.std.specs.Prelude.{◌<◌, ◌^◌, IfSome, IfNone};
ghost use Rattle.read_decks.specs.Lines.{IsLonger};
ghost use Rattle.read_faults.specs.ByLine.{IsFirstPast};

use read_decks::Lines;

/// The number, from 1, of the first line of a text that stands behind the first `most` lines, or is
/// longer than `longest` bytes, and that line.
pub fn first_past(text: &[u8], most: u16, longest: usize) -> Option<(u16, &[u8])>
    requires { most < 2 ^ 15 }
    ensures found { IfSome result (λ past. IsFirstPast most longest text.now past.0 past.1.now) }
    ensures none { IfNone result (¬ IsLonger most longest text.now) }
{
    let mut number = 0;
    for line in (Lines { rest: text }) {
        number += 1;
        if number > most || line.len() > longest {
            return Some((number, line));
        }
    }
    None
}
