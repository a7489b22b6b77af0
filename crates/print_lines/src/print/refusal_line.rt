//! The line of a deck that the analysis refuses.

ghost use Rattle.std.specs.Prelude.{flat_map};
ghost use Rattle.print_lines.specs.Stands.{Passes};
ghost use Rattle.flow_graph.specs.declared.refusal.Refusal.TheVariants.{Alters, NotInProfile};
ghost use Rattle.flow_graph.specs.declared.refusal.Refusal.TheVariants.{Unbounded};
ghost use Rattle.print_lines.specs.FaultText.{next_location, refusal_text};

use super::{put_located, put_location, put_numbered, two_digits};
use crate::sheet::Sheet;
use base_devices::Output;
use base_words::Location;
use flow_graph::{Cycle, Refusal};

/// Puts the line of a refusal.
pub fn put_refusal<O: Output>(sheet: &mut Sheet, writer: &mut O, refusal: &Refusal)
    ensures { Passes (O.device writer.old) sheet.old (O.device writer.new) sheet.new
        (refusal_text refusal.now) }
{
    match refusal {
        Refusal::Memory => sheet.put(writer, b"fault 31 memory\n"),
        Refusal::NotInProfile(location, op) => put_not_in_profile(sheet, writer, *location, *op),
        Refusal::NotLoaded(location) => {
            put_located(sheet, writer, b"fault 33 notloaded ", *location)
        }
        Refusal::Alters { writer: from, word } => put_alters(sheet, writer, *from, *word),
        Refusal::Unbounded(cycle) => put_cycle(sheet, writer, cycle),
        Refusal::TooLarge(product) => {
            put_numbered(sheet, writer, b"fault 36 toolarge ", *product)
        }
        Refusal::TooMany => sheet.put(writer, b"fault 37 toomany\n"),
        Refusal::HasCalls => sheet.put(writer, b"fault 14 notes unknown call\n"),
    }
}

/// Puts the line of an operation that isn't in the profile.
#[tactic(auto, using(crate::proofs::Passing::passing))]
fn put_not_in_profile<O: Output>(sheet: &mut Sheet, writer: &mut O, location: Location, op: u8)
    ensures { Passes (O.device writer.old) sheet.old (O.device writer.new) sheet.new
        (refusal_text (NotInProfile location op)) }
{
    sheet.put(writer, b"fault 32 notinprofile ");
    put_location(sheet, writer, location);
    sheet.put(writer, b" ");
    sheet.put(writer, &two_digits(op));
    sheet.put(writer, b"\n");
}

/// Puts the line of a location that another one's instruction alters.
#[tactic(auto, using(crate::proofs::Passing::passing))]
fn put_alters<O: Output>(sheet: &mut Sheet, writer: &mut O, from: Location, word: Location)
    ensures { Passes (O.device writer.old) sheet.old (O.device writer.new) sheet.new
        (refusal_text (Alters from word)) }
{
    sheet.put(writer, b"fault 34 alters ");
    put_location(sheet, writer, from);
    sheet.put(writer, b" ");
    put_location(sheet, writer, word);
    sheet.put(writer, b"\n");
}

/// Puts the line of a cycle.
#[tactic(auto, using(crate::proofs::Passing::passing))]
fn put_cycle<O: Output>(sheet: &mut Sheet, writer: &mut O, cycle: &Cycle)
    ensures { Passes (O.device writer.old) sheet.old (O.device writer.new) sheet.new
        (refusal_text (Unbounded cycle.now)) }
{
    sheet.put(writer, b"fault 35 unbounded");
    put_locations(sheet, writer, &cycle.locations);
    sheet.put(writer, b"\n");
}

/// Puts a location, after a space.
#[tactic(auto, using(crate::proofs::Passing::passing))]
fn put_next<O: Output>(sheet: &mut Sheet, writer: &mut O, location: Location)
    ensures { Passes (O.device writer.old) sheet.old (O.device writer.new) sheet.new
        (next_location location) }
{
    sheet.put(writer, b" ");
    put_location(sheet, writer, location);
}

/// Puts locations, each after a space.
#[tactic(auto, using(crate::proofs::Passing::passing))]
fn put_locations<O: Output>(sheet: &mut Sheet, writer: &mut O, locations: &[Location])
    ensures { Passes (O.device writer.old) sheet.old (O.device writer.new) sheet.new
        (flat_map next_location locations.now) }
{
    for location in locations {
        put_next(sheet, writer, *location);
    }
}
