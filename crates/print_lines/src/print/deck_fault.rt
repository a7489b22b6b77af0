ghost use Rattle.print_lines.specs.Stands.{Passes};
ghost use Rattle.print_lines.specs.FaultText.{deck_text};

use super::{put_located, put_numbered};
use crate::sheet::Sheet;
use base_devices::Output;
use read_decks::DeckFault;

/// Puts the line of a fault of the deck.
pub fn put_deck_fault<O: Output>(sheet: &mut Sheet, writer: &mut O, fault: &DeckFault)
    ensures { Passes (O.device writer.old) sheet.old (O.device writer.new) sheet.new
        (deck_text fault.now) }
{
    match *fault {
        DeckFault::Read => sheet.put(writer, b"fault 1 deck read\n"),
        DeckFault::Memory => sheet.put(writer, b"fault 2 deck memory\n"),
        DeckFault::Card(line) => put_numbered(sheet, writer, b"fault 3 deck card ", line),
        DeckFault::Twice(location) => put_located(sheet, writer, b"fault 4 deck twice ", location),
        DeckFault::NoStart => sheet.put(writer, b"fault 5 deck nostart\n"),
        DeckFault::TwoStarts(line) => put_numbered(sheet, writer, b"fault 6 deck twostarts ", line),
        DeckFault::PastDrum(line) => put_numbered(sheet, writer, b"fault 7 deck pastdrum ", line),
        DeckFault::TooLong => sheet.put(writer, b"fault 8 deck toolong\n"),
    }
}
