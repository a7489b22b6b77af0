ghost use Rattle.std.specs.Prelude.{◌≡◌, ◌≤◌, map, option_map, vec_len};

use super::pattern::Pattern;
use base_words::Location;

/// A list of the notes: what may stand at a location whose word the program alters.
#[derive(Debug, Drop)]
pub struct Listing {
    pub location: Location,
    /// 1 to 64, in order.
    pub patterns: Vec<Pattern>,
    pub ghost some: { 1 ≤ vec_len patterns },
    pub ghost few: { vec_len patterns ≤ 64 },
}

impl Listing {
    ghost use Rattle.base_notes.specs.Allowed as said;
    ghost use Rattle.base_notes.specs.Listed.{listed};

    /// How many patterns a list has at most.
    pub const MOST: usize = 64;

    /// The patterns of a location, where one of the lists is for it.
    pub fn patterns_in(lists: &[Listing], location: Location) -> Option<&[Pattern]>
        ensures { option_map (λ patterns. patterns.now) result
            ≡ said.patterns_in (map listed lists.now) location.number }
    {
        for list in lists {
            if list.location.number == location.number {
                return Some(&list.patterns);
            }
        }
        None
    }
}
