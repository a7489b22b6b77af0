//! The parts of a line, each put on a sheet. They take no memory.

ghost use Rattle.std.specs.Prelude.{◌≡◌, ◌++◌, codes};
ghost use Rattle.base_words.specs.Numeral.{digits_of};
ghost use Rattle.print_lines.specs.Stands.{Passes};
ghost use Rattle.print_lines.specs.BoundText.{bound_text};

mod deck_fault;
pub mod fault_line;
mod input_fault;
pub mod mark_name;
mod note_fault;
mod part_fault;
mod refusal_line;
pub mod verdict_line;

use crate::sheet::Sheet;
use base_devices::Output;
use base_words::Location;
use itoa::Integer;

/// Puts the line of a bound, in word times.
pub fn put_bound<O: Output>(sheet: &mut Sheet, writer: &mut O, bound: u64)
    ensures { Passes (O.device writer.old) sheet.old (O.device writer.new) sheet.new
        (bound_text bound) }
{
    put_numbered(sheet, writer, b"bound ", bound);
}

/// Puts a location, in four digits.
pub fn put_location<O: Output>(sheet: &mut Sheet, writer: &mut O, location: Location)
    ensures { Passes (O.device writer.old) sheet.old (O.device writer.new) sheet.new
        (digits_of 4 location.number) }
{
    sheet.put(writer, &four_digits(location.number()));
}

/// Puts a name and a number.
#[tactic(auto, using(crate::proofs::Passing::passing))]
pub fn put_named<O: Output, I: Integer>(sheet: &mut Sheet, writer: &mut O, name: &[u8], number: I)
    ensures { Passes (O.device writer.old) sheet.old (O.device writer.new) sheet.new
        (name.now ++ I.text number) }
{
    sheet.put(writer, name);
    sheet.put_number(writer, number);
}

/// Puts a line of a text and a number.
#[tactic(auto, using(crate::proofs::Passing::passing))]
fn put_numbered<O: Output, I: Integer>(sheet: &mut Sheet, writer: &mut O, text: &[u8], number: I)
    ensures { Passes (O.device writer.old) sheet.old (O.device writer.new) sheet.new
        (text.now ++ I.text number ++ codes "\n") }
{
    put_named(sheet, writer, text, number);
    sheet.put(writer, b"\n");
}

/// Puts a line of a text and a location.
#[tactic(auto, using(crate::proofs::Passing::passing))]
pub fn put_located<O: Output>(sheet: &mut Sheet, writer: &mut O, text: &[u8], location: Location)
    ensures { Passes (O.device writer.old) sheet.old (O.device writer.new) sheet.new
        (text.now ++ digits_of 4 location.number ++ codes "\n") }
{
    sheet.put(writer, text);
    put_location(sheet, writer, location);
    sheet.put(writer, b"\n");
}

/// The four decimal digits of a number.
pub fn four_digits(number: u16) -> [u8; 4]
    ensures { result ≡ digits_of 4 number }
{
    [
        b'0' + (number / 10 / 10 / 10 % 10) as u8,
        b'0' + (number / 10 / 10 % 10) as u8,
        b'0' + (number / 10 % 10) as u8,
        b'0' + (number % 10) as u8,
    ]
}

/// The two decimal digits of a number.
pub fn two_digits(number: u8) -> [u8; 2]
    ensures { result ≡ digits_of 2 number }
{
    [b'0' + number / 10 % 10, b'0' + number % 10]
}
