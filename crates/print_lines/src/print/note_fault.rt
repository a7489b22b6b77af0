//! The line of a fault in the timing table or in the notes.

ghost use Rattle.std.specs.Prelude.{◌++◌, codes, string_bytes};
ghost use Rattle.print_lines.specs.Stands.{Passes};
ghost use Rattle.base_notes.specs.declared.fault.NoteFault.TheVariants.{TwoLists, TwoMarks};
ghost use Rattle.print_lines.specs.FaultText.{note_text, part_name};

use super::part_fault::put_part;
use super::put_location;
use crate::part::Part;
use crate::sheet::Sheet;
use base_devices::Output;
use base_notes::{KeyPath, NoteFault};
use base_words::Location;

/// Puts the line of a fault of this part, which is the timing table or the notes.
pub fn put_note_fault<O: Output>(sheet: &mut Sheet, writer: &mut O, part: Part, fault: &NoteFault)
    ensures { Passes (O.device writer.old) sheet.old (O.device writer.new) sheet.new
        (note_text (part_name part) fault.now) }
{
    match fault {
        NoteFault::Toml => put_part(sheet, writer, b"fault 11 ", part, b" toml\n"),
        NoteFault::Memory => put_part(sheet, writer, b"fault 12 ", part, b" memory\n"),
        NoteFault::Missing(key) => put_key(sheet, writer, b"fault 13 ", part, b" missing ", key),
        NoteFault::Unknown(key) => put_key(sheet, writer, b"fault 14 ", part, b" unknown ", key),
        NoteFault::Range(key) => put_key(sheet, writer, b"fault 15 ", part, b" range ", key),
        NoteFault::Kind(key) => put_key(sheet, writer, b"fault 16 ", part, b" kind ", key),
        NoteFault::TwoMarks(from, onto) => put_two_marks(sheet, writer, part, *from, *onto),
        NoteFault::TwoLists(location) => put_two_lists(sheet, writer, part, *location),
    }
}

/// Puts a line of a text, the name of a part, another text and a key.
#[tactic(auto, using(crate::proofs::Passing::passing))]
fn put_key<O: Output>(
    sheet: &mut Sheet,
    writer: &mut O,
    begin: &[u8],
    part: Part,
    middle: &[u8],
    key: &KeyPath,
)
    ensures { Passes (O.device writer.old) sheet.old (O.device writer.new) sheet.new
        (begin.now ++ part_name part ++ middle.now ++ string_bytes key.now.text ++ codes "\n") }
{
    put_part(sheet, writer, begin, part, middle);
    sheet.put(writer, key.as_bytes());
    sheet.put(writer, b"\n");
}

/// Puts the line of two marks on one edge.
#[tactic(auto, using(crate::proofs::Passing::passing))]
fn put_two_marks<O: Output>(
    sheet: &mut Sheet,
    writer: &mut O,
    part: Part,
    from: Location,
    onto: Location,
)
    ensures { Passes (O.device writer.old) sheet.old (O.device writer.new) sheet.new
        (note_text (part_name part) (TwoMarks from onto)) }
{
    put_part(sheet, writer, b"fault 17 ", part, b" twomarks ");
    put_location(sheet, writer, from);
    sheet.put(writer, b" ");
    put_location(sheet, writer, onto);
    sheet.put(writer, b"\n");
}

/// Puts the line of two lists for one location.
#[tactic(auto, using(crate::proofs::Passing::passing))]
fn put_two_lists<O: Output>(sheet: &mut Sheet, writer: &mut O, part: Part, location: Location)
    ensures { Passes (O.device writer.old) sheet.old (O.device writer.new) sheet.new
        (note_text (part_name part) (TwoLists location)) }
{
    put_part(sheet, writer, b"fault 18 ", part, b" twolists ");
    put_location(sheet, writer, location);
    sheet.put(writer, b"\n");
}
