ghost use Rattle.std.specs.Prelude.{◌≡◌, [], ℕ, ◌^◌, ◌<◌, ◌≤◌, length, map, slice_get, Some};
ghost use Rattle.flow_walks.specs.Visited.{seen_visit};
ghost use Rattle.print_walks.specs.Report.{time_in};
ghost use Rattle.print_walks.specs.TalliesOf.{AreTallies, tally_of};

use super::tally::Tally;
use base_notes::Mark;
use flow_walks::{Visit, no_passes};
use read_decks::Deck;

/// One more than a deck has lines at most.
pub const LINES: usize = 4001;

/// What a walk spends at the cards of a deck and elsewhere, and how often it passes the marks of
/// notes.
#[derive(Drop)]
pub struct Tallies {
    /// By the cards' lines.
    pub cards: [Tally; LINES],
    /// At locations that no card gives a word.
    pub other: Tally,
    /// By the marks' indices in the notes; what stands past the last mark means nothing.
    pub passed: [u64; Mark::MOST],
}

/// No hops at any card.
fn no_hops() -> [Tally; LINES]
    ensures none { (line : ℕ) → line ≤ 4000 → slice_get result line ≡ Some (tally_of []) }
    ensures places { length result ≡ 4001 }
{
    [Tally::NONE; LINES]
}

impl Tallies {
    /// The tallies of a walk, by the cards of a deck and the marks of notes: one pass over the
    /// walk.
    pub fn of(walk: &[Visit], deck: &Deck, marks: &[Mark]) -> Tallies
        requires short { time_in (map seen_visit walk.now) < 2 ^ 62 }
        requires few { length walk.now < 2 ^ 62 }
        requires marks { length marks.now ≤ 64 }
        ensures { AreTallies deck.now marks.now (map seen_visit walk.now) result }
    {
        let mut cards = no_hops();
        let mut other = Tally::NONE;
        let mut passed = no_passes();
        for visit in walk {
            match deck.card_of(visit.place) {
                Some(line) => {
                    let slot = &mut cards[line as usize];
                    *slot = slot.with(visit);
                }
                None => other = other.with(visit),
            }
            visit.count_passes(marks, &mut passed);
        }
        Tallies {
            cards,
            other,
            passed,
        }
    }
}
