//! What the instructions of a pattern name whose data addresses follow one another.

ghost use Rattle.std.specs.Prelude.{◌≡◌, ◌<◌, ◌≤◌, ◌↔◌, ◌+◌, ℕ};
ghost use Rattle.machine_steps.specs.Effect.{band};
ghost use Rattle.check_findings.specs.NamedOf.{IsBetween, IsNamedIn};

use crate::naming::Naming;
use base_notes::Pattern;
use base_words::Location;

/// What the instructions of a pattern name whose data addresses follow one another: the drum words
/// from a number on and below another one.
#[derive(Clone, Copy)]
pub struct Stretch {
    pub from: u16,
    pub below: u16,
    /// One past the last of these data addresses.
    pub end: u16,
}

/// No word, whatever the data address.
fn none() -> Stretch
    ensures words { result.below ≡ 0 }
    ensures end { result.end ≡ 10000 }
{
    Stretch {
        from: 0,
        below: 0,
        end: 10_000,
    }
}

/// Ten words of the band that this address is in, from one of its words on.
fn in_band(d: u16, first: u16) -> Stretch
    requires drum { d < 2000 }
    requires first { first ≤ 27 }
    ensures from { result.from ≡ band d + first }
    ensures below { result.below ≡ band d + first + 10 }
    ensures end { result.end ≡ band d + 50 }
{
    let start = d / 50 * 50;
    Stretch {
        from: start + first,
        below: start + first + 10,
        end: start + 50,
    }
}

/// The address itself, and those behind it up to the last one of a pattern that are on the drum.
fn up_to(d: u16, last: u16) -> Stretch
    requires drum { d < 2000 }
    requires within { d ≤ last }
    requires last { last < 10000 }
    ensures from { result.from ≡ d }
    ensures below { result.below ≡ result.end }
    ensures past { d < result.end }
    ensures to { result.end ≤ last + 1 }
    ensures on_drum { result.end ≤ 2000 }
{
    let end = (last + 1).min(Location::DRUM);
    Stretch {
        from: d,
        below: end,
        end,
    }
}

/// What the instructions of a pattern name from a data address on.
pub fn names_from(pattern: Pattern, d: u16) -> Stretch
    requires { d ≤ pattern.d_to }
    ensures past { d < result.end }
    ensures on_drum { result.below ≤ 2000 }
    ensures named { (word : ℕ) → IsBetween result.from result.below word
        ↔ IsNamedIn pattern d result.end word }
{
    if d >= Location::DRUM {
        return none();
    }
    match Naming::of(pattern.op) {
        Naming::Nothing => none(),
        Naming::Data => up_to(d, pattern.d_to),
        Naming::ReadWords => in_band(d, 1),
        Naming::PunchWords => in_band(d, 27),
    }
}
