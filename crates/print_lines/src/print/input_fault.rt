ghost use Rattle.print_lines.specs.Stands.{Passes};
ghost use Rattle.print_lines.specs.FaultText.{input_text};

use super::put_numbered;
use crate::sheet::Sheet;
use base_devices::Output;
use read_replays::InputFault;

/// Puts the line of a fault of the inputs.
pub fn put_input_fault<O: Output>(sheet: &mut Sheet, writer: &mut O, fault: &InputFault)
    ensures { Passes (O.device writer.old) sheet.old (O.device writer.new) sheet.new
        (input_text fault.now) }
{
    match *fault {
        InputFault::Read => sheet.put(writer, b"fault 41 inputs read\n"),
        InputFault::Memory => sheet.put(writer, b"fault 42 inputs memory\n"),
        InputFault::Line(line) => put_numbered(sheet, writer, b"fault 43 inputs line ", line),
        InputFault::Repeated(line) => {
            put_numbered(sheet, writer, b"fault 44 inputs repeated ", line)
        }
        InputFault::PastDrum(line) => {
            put_numbered(sheet, writer, b"fault 45 inputs pastdrum ", line)
        }
        InputFault::TooLong => sheet.put(writer, b"fault 46 inputs toolong\n"),
    }
}
