//! What the notes say of a program: where the programmed switch stands, whether load cards are
//! read, how often edges are passed, what an altered word may become, and where the exits of
//! subroutines go back to.
ghost use Rattle.std.specs.Prelude.{◌≡◌, map, option_map};
ghost use Rattle.std.specs.List.{list_all};
ghost use Rattle.base_notes.specs.Allowed as said;
ghost use Rattle.base_notes.specs.Listed.{listed, notes_of};
ghost use Rattle.base_notes.specs.Short.{is_plain, is_short};

pub mod call;
pub mod edge;
pub mod edges;
pub mod listing;
pub mod mark;
pub mod name;
pub mod pattern;
pub mod programmed;

use base_words::Location;
use call::Call;
use listing::Listing;
use mark::Mark;
use pattern::Pattern;
use programmed::Programmed;
use std::marker::Model;

/// Notes on a program.
#[derive(Debug, Drop)]
pub struct Notes {
    programmed: Programmed,
    load_cards: bool,
    marks: Vec<Mark>,
    lists: Vec<Listing>,
    calls: Vec<Call>,
}

impl Model for Notes {
    ghost Value = { said.Notes };

    ghost view = { λ n.
        notes_of n.programmed n.load_cards n.marks.items n.lists.items n.calls.items };

    ghost invariant = { λ n.
        said.AreSound
        (notes_of n.programmed n.load_cards n.marks.items n.lists.items n.calls.items) };
}

/// Whether each of these marks has one edge, and no name.
fn are_plain(marks: &[Mark]) -> bool
    ensures { result ≡ list_all is_plain marks.now }
{
    marks.iter().all(|mark| mark.is_plain())
}

impl Notes {
    /// The notes that say this: where the programmed switch stands, whether load cards are read,
    /// the marks, at most 64, no edge there twice, each inside of an earlier one or of none, the
    /// lists, no two for one location, and the calls, at most 64, no two with one edge and one
    /// exit.
    pub fn new(
        programmed: Programmed,
        load_cards: bool,
        marks: Vec<Mark>,
        lists: Vec<Listing>,
        calls: Vec<Call>,
    ) -> Notes
        requires { said.AreSound
            (notes_of programmed load_cards marks.items lists.items calls.items) }
        ensures { result ≡ notes_of programmed load_cards marks.items lists.items calls.items }
    {
        Notes {
            programmed,
            load_cards,
            marks,
            lists,
            calls,
        }
    }

    /// The patterns of a listed location, 1 to 64, in order; `None` for one that isn't listed.
    pub fn patterns(&self, location: Location) -> Option<&[Pattern]>
        ensures { option_map (λ patterns. patterns.now) result
            ≡ said.patterns_of self.now location.number }
    {
        Listing::patterns_in(&self.lists, location)
    }

    /// The marks, at most 64, in order. No edge is there twice.
    pub fn marks(&self) -> &[Mark]
        ensures all { result.now ≡ self.now.marks }
        ensures sound { said.AreSound self.now }
    {
        &self.marks
    }

    /// The lists, in order. No two are for one location.
    pub fn lists(&self) -> &[Listing]
        ensures all { map listed result.now ≡ self.now.lists }
        ensures sound { said.AreSound self.now }
    {
        &self.lists
    }

    /// The calls, at most 64, in order. No two have one edge and one exit.
    pub fn calls(&self) -> &[Call]
        ensures all { result.now ≡ self.now.calls }
        ensures sound { said.AreSound self.now }
    {
        &self.calls
    }

    /// Whether they are short: there are 8 marks at most, each with one edge and no name, and no
    /// calls.
    pub fn is_short(&self) -> bool
        ensures { result ≡ is_short self.now }
    {
        self.marks.len() <= Mark::MOST_SHORT && are_plain(&self.marks) && self.calls.is_empty()
    }

    /// Where the notes say that the programmed switch stands.
    pub fn programmed(&self) -> Programmed
        ensures { result ≡ self.now.programmed }
    {
        self.programmed
    }

    /// Whether the notes say that load cards may be read.
    pub fn load_cards(&self) -> bool
        ensures { result ≡ self.now.load_cards }
    {
        self.load_cards
    }
}
