//! The lines of a ceiling and its walk: what a pass of each mark costs, how often the walk passes
//! it, and what both come to.

ghost use Rattle.std.specs.Prelude.{◌≡◌, ◌≤◌, length, flat_map};
ghost use Rattle.std.specs.List.{enumerate_from};
ghost use Rattle.ceiling_rounds.specs.InRounds.{passes_in};
ghost use Rattle.ceiling_checked.specs.CeilingOf.{prices_of};
ghost use Rattle.print_lines.specs.Stands.{Passes};
ghost use Rattle.print_ceilings.specs.CeilingText.{bracket_lines, ceiling_text, price_line};
ghost use Rattle.print_ceilings.specs.CeilingText.{price_line_at};

use base_devices::Output;
use base_notes::{Mark, Notes};
use ceiling_checked::Bracket;
use print_lines::{Sheet, put_location, put_name, put_named};

/// Puts the line of a mark with this price and so many passes.
fn put_price<O: Output>(sheet: &mut Sheet, writer: &mut O, mark: &Mark, price: u128, passes: u128)
    ensures { Passes (O.device writer.old) sheet.old (O.device writer.new) sheet.new
        (price_line mark.now price passes) }
{
    sheet.put(writer, b"mark ");
    put_location(sheet, writer, mark.from);
    sheet.put(writer, b" ");
    put_location(sheet, writer, mark.onto);
    put_named(sheet, writer, b" price ", price);
    put_named(sheet, writer, b" passed ", passes);
    put_name(sheet, writer, mark);
    sheet.put(writer, b"\n");
}

/// Puts the lines of marks, each with what ceiling and walk have at its index.
fn put_prices<O: Output>(sheet: &mut Sheet, writer: &mut O, marks: &[Mark], bracket: &Bracket)
    requires prices { length marks.now ≤ length (prices_of bracket.now.ceiling) }
    requires passes { length marks.now ≤ length (passes_in bracket.now.walk) }
    ensures { Passes (O.device writer.old) sheet.old (O.device writer.new) sheet.new
        (flat_map (price_line_at bracket.now) (enumerate_from 0 marks.now)) }
{
    for (place, mark) in marks.iter().enumerate() {
        let price = bracket.ceiling.price(place);
        put_price(sheet, writer, mark, price, bracket.walk.passes(place));
    }
}

/// Puts the lines of what the walk beside a ceiling takes, and of the ceiling.
pub(crate) fn put_totals<O: Output>(sheet: &mut Sheet, writer: &mut O, bracket: &Bracket)
    ensures { Passes (O.device writer.old) sheet.old (O.device writer.new) sheet.new
        (bracket_lines bracket.now) }
{
    put_named(sheet, writer, b"reached ", bracket.walk.total());
    put_named(sheet, writer, b"\nceiling ", bracket.ceiling.total());
    sheet.put(writer, b"\n");
}

/// Puts a ceiling and its walk: for each mark of the notes what a pass of it costs, and how often
/// the walk passes it; and then what both come to. It takes no memory.
pub fn put_ceiling<O: Output>(sheet: &mut Sheet, writer: &mut O, bracket: &Bracket, notes: &Notes)
    requires prices { length (prices_of bracket.now.ceiling) ≡ length notes.now.marks }
    requires passes { length (passes_in bracket.now.walk) ≡ length notes.now.marks }
    ensures { Passes (O.device writer.old) sheet.old (O.device writer.new) sheet.new
        (ceiling_text notes.now bracket.now) }
{
    put_prices(sheet, writer, notes.marks(), bracket);
    put_totals(sheet, writer, bracket);
}
