//! All faults of a text of inputs, line by line.

ghost use Rattle.std.specs.Prelude.{IfOk};
ghost use Rattle.read_faults.specs.InputFaults.{AreInputFaults};

use crate::all_faults::all_faults;
use crate::first_past::first_past;
use crate::inputs_so_far::InputsSoFar;
use crate::placed_fault::PlacedFault;
use crate::slip::Slip;
use read_replays::{InputFault, Inputs};
use std::alloc::{AllocError, Global};

/// All faults of a text of inputs, in the order of their lines: of each line that has one the fault
/// that a reader would find first, where lines with faults count as comments. A text that is too
/// long has that one fault, at the first line past a limit.
///
/// # Errors
///
/// Where there is no memory for what the lines say, or for the faults.
pub fn input_faults(alloc: Global, text: &[u8]) -> Result<Vec<PlacedFault<InputFault>>, AllocError>
    ensures { IfOk result (λ faults. AreInputFaults text.now faults.items) }
{
    if let Some((number, line)) = first_past(text, Inputs::LINES, Inputs::LINE) {
        let mut faults = Vec::new(alloc);
        faults.push(PlacedFault {
            fault: InputFault::TooLong,
            line: Some(number),
            earlier: None,
            slip: Slip::of_long(line),
        })?;
        return Ok(faults);
    }
    let before = Vec::new(alloc);
    all_faults(alloc, InputsSoFar { before }, text)
}
