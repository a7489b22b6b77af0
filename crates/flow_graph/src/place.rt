//! Whether a location is loaded or listed, with operations in the profile alone.

ghost use Rattle.std.specs.Prelude.{◌≡◌, MatchBool, IfSome, IfNone, IfErr, OnOk};
ghost use Rattle.read_decks.specs.InDeck.{loads_in};
ghost use Rattle.base_notes.specs.Allowed as listed;
ghost use Rattle.base_notes.specs.Allowed.{allowed};
ghost use Rattle.flow_graph.specs.Accepted.{IsThere, IsInProfile, IsGood, IsFirstIn, IsOutside};
ghost use Rattle.flow_graph.specs.Refused.{IsWrong};

use crate::patterns::{Patterns, instruction_of};
use crate::refusal::Refusal;
use base_notes::Notes;
use base_words::{Instruction, Location, Op};
use read_decks::Deck;

/// Checks that a location is loaded or listed, with operations in the profile alone.
///
/// # Errors
///
/// [`Refusal::NotLoaded`] where it is neither loaded nor listed; [`Refusal::NotInProfile`] with the
/// first operation outside the profile.
pub fn check_place(deck: &Deck, notes: &Notes, location: Location) -> Result<(), Refusal>
    ensures good { OnOk result (IsGood (loads_in deck.now) notes.now location.number) }
    ensures wrong { IfErr result (IsWrong (loads_in deck.now) notes.now location.number) }
{
    if !is_there(deck, notes, location) {
        return Err(Refusal::NotLoaded(location));
    }
    match first_outside(deck, notes, location) {
        Some(instruction) => Err(Refusal::NotInProfile(location, instruction.op)),
        None => Ok(()),
    }
}

/// Whether the location is loaded or listed.
pub fn is_there(deck: &Deck, notes: &Notes, location: Location) -> bool
    ensures { let there = IsThere (loads_in deck.now) notes.now location.number in
        MatchBool result there (¬ there) }
{
    if deck.word(location).is_some() {
        return true;
    }
    is_listed(notes, location)
}

/// Whether the location has a list.
pub fn is_listed(notes: &Notes, location: Location) -> bool
    ensures { result ≡ listed.is_listed notes.now location.number }
{
    notes.patterns(location).is_some()
}

/// The first instruction that is allowed at the location with an operation outside the profile.
fn first_outside(deck: &Deck, notes: &Notes, location: Location) -> Option<Instruction>
    ensures first { IfSome result (IsFirstIn (allowed (loads_in deck.now) notes.now location.number)
        IsOutside) }
    ensures none { IfNone result (IsInProfile (loads_in deck.now) notes.now location.number) }
{
    for pattern in Patterns::at(deck, notes, location) {
        if Op::of(pattern.op).is_none() {
            return Some(instruction_of(pattern, pattern.d_from));
        }
    }
    None
}
