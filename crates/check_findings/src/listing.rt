//! The lines of what was found.

ghost use Rattle.std.specs.Prelude.{◌++◌, codes, decimal, map};
ghost use Rattle.base_words.specs.Numeral.{digits_of};
ghost use Rattle.print_lines.specs.Stands.{Passes};
ghost use Rattle.check_findings.specs.Finding.{idle};
ghost use Rattle.check_findings.specs.FindingOf.{seen};
ghost use Rattle.check_findings.specs.FindingsText.{finding_text, findings_text};

use crate::finding::Finding;
use base_devices::Output;
use base_notes::Edge;
use base_words::Location;
use print_lines::{Sheet, put_located, put_location, two_digits};

/// Puts a line of a name, a location and an operation.
#[tactic(auto, using(print_lines::proofs::Passing::passing))]
fn put_operation<O: Output>(
    sheet: &mut Sheet,
    writer: &mut O,
    name: &[u8],
    location: Location,
    op: u8,
)
    ensures { Passes (O.device writer.old) sheet.old (O.device writer.new) sheet.new
        (name.now ++ digits_of 4 location.number ++ codes " " ++ digits_of 2 op ++ codes "\n") }
{
    sheet.put(writer, name);
    put_location(sheet, writer, location);
    sheet.put(writer, b" ");
    sheet.put(writer, &two_digits(op));
    sheet.put(writer, b"\n");
}

/// Puts a line of a name and two locations.
#[tactic(auto, using(print_lines::proofs::Passing::passing))]
fn put_locations<O: Output>(
    sheet: &mut Sheet,
    writer: &mut O,
    name: &[u8],
    first: Location,
    second: Location,
)
    ensures { Passes (O.device writer.old) sheet.old (O.device writer.new) sheet.new
        (name.now ++ digits_of 4 first.number ++ codes " " ++ digits_of 4 second.number
        ++ codes "\n") }
{
    sheet.put(writer, name);
    put_location(sheet, writer, first);
    sheet.put(writer, b" ");
    put_location(sheet, writer, second);
    sheet.put(writer, b"\n");
}

/// Puts a line of a name and two edges.
#[tactic(auto, using(print_lines::proofs::Passing::passing))]
fn put_edges<O: Output>(sheet: &mut Sheet, writer: &mut O, name: &[u8], first: Edge, second: Edge)
    ensures { Passes (O.device writer.old) sheet.old (O.device writer.new) sheet.new
        (name.now ++ digits_of 4 first.from.number ++ codes " " ++ digits_of 4 first.onto.number
        ++ codes " " ++ digits_of 4 second.from.number ++ codes " "
        ++ digits_of 4 second.onto.number ++ codes "\n") }
{
    sheet.put(writer, name);
    put_location(sheet, writer, first.from);
    sheet.put(writer, b" ");
    put_location(sheet, writer, first.onto);
    sheet.put(writer, b" ");
    put_location(sheet, writer, second.from);
    sheet.put(writer, b" ");
    put_location(sheet, writer, second.onto);
    sheet.put(writer, b"\n");
}

/// Puts the line of a product that is too large.
#[tactic(auto, using(print_lines::proofs::Passing::passing))]
fn put_product<O: Output>(sheet: &mut Sheet, writer: &mut O, product: u128)
    ensures { Passes (O.device writer.old) sheet.old (O.device writer.new) sheet.new
        (codes "toolarge " ++ decimal product ++ codes "\n") }
{
    sheet.put(writer, b"toolarge ");
    sheet.put_number(writer, product);
    sheet.put(writer, b"\n");
}

/// Puts the line of idle words, from one to another one.
#[tactic(auto, using(print_lines::proofs::Passing::passing))]
fn put_idle<O: Output>(sheet: &mut Sheet, writer: &mut O, first: Location, last: Location)
    ensures { Passes (O.device writer.old) sheet.old (O.device writer.new) sheet.new
        (finding_text (idle first.number last.number)) }
{
    sheet.put(writer, b"idle ");
    put_location(sheet, writer, first);
    if first.number() == last.number() {
        sheet.put(writer, b"\n");
    } else {
        put_located(sheet, writer, b" to ", last);
    }
}

/// Puts the line of a finding.
#[tactic(auto, using(print_lines::proofs::Passing::passing))]
fn put_finding<O: Output>(sheet: &mut Sheet, writer: &mut O, finding: &Finding)
    ensures { Passes (O.device writer.old) sheet.old (O.device writer.new) sheet.new
        (finding_text (seen finding.now)) }
{
    match *finding {
        Finding::NotLoaded(location) => put_located(sheet, writer, b"notloaded ", location),
        Finding::NotInProfile(location, op) => put_operation(
            sheet,
            writer,
            b"notinprofile ",
            location,
            op,
        ),
        Finding::Alters {
            writer: from,
            word,
            ..
        } => put_locations(sheet, writer, b"alters ", from, word),
        Finding::TooLarge(product) => put_product(sheet, writer, product),
        Finding::Loop { edge, .. } => put_locations(sheet, writer, b"loop ", edge.from, edge.onto),
        Finding::UnusedMark(edge) => {
            put_locations(sheet, writer, b"unused mark ", edge.from, edge.onto);
        }
        Finding::UnusedList(location) => put_located(sheet, writer, b"unused list ", location),
        Finding::UnusedCall(edge) => {
            put_locations(sheet, writer, b"unused call ", edge.from, edge.onto);
        }
        Finding::Idle { first, last } => put_idle(sheet, writer, first, last),
        Finding::Inside { inner, outer } => put_edges(sheet, writer, b"inside ", inner, outer),
    }
}

/// Puts the lines of what was found.
#[tactic(auto, using(print_lines::proofs::Passing::passing))]
pub fn put_findings<O: Output>(sheet: &mut Sheet, writer: &mut O, findings: &[Finding])
    ensures { Passes (O.device writer.old) sheet.old (O.device writer.new) sheet.new
        (findings_text (map seen findings.now)) }
{
    for finding in findings {
        put_finding(sheet, writer, finding);
    }
}
