ghost use Rattle.print_lines.specs.Stands.{Passes};
ghost use Rattle.print_lines.specs.FaultText.{fault_text};

use super::deck_fault::put_deck_fault;
use super::input_fault::put_input_fault;
use super::note_fault::put_note_fault;
use super::part_fault::put_part_fault;
use super::put_located;
use super::refusal_line::put_refusal;
use crate::fault::Fault;
use crate::part::Part;
use crate::sheet::Sheet;
use base_devices::Output;

/// Puts the line of a fault.
pub fn put_fault<O: Output>(sheet: &mut Sheet, writer: &mut O, fault: &Fault)
    ensures { Passes (O.device writer.old) sheet.old (O.device writer.new) sheet.new
        (fault_text fault.now) }
{
    match fault {
        Fault::NoPart => sheet.put(writer, b"fault 51 nopart\n"),
        Fault::Part(part, fault) => put_part_fault(sheet, writer, *part, *fault),
        Fault::Memory => sheet.put(writer, b"fault 53 memory\n"),
        Fault::Deck(fault) => put_deck_fault(sheet, writer, fault),
        Fault::Times(fault) => put_note_fault(sheet, writer, Part::Times, fault),
        Fault::Notes(fault) => put_note_fault(sheet, writer, Part::Notes, fault),
        Fault::Inputs(fault) => put_input_fault(sheet, writer, fault),
        Fault::Refused(refusal) => put_refusal(sheet, writer, refusal),
        Fault::Loaded(location) => {
            put_located(sheet, writer, b"fault 47 inputs loaded ", *location)
        }
    }
}
