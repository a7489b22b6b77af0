//! All faults of a deck's text, line by line.

ghost use Rattle.std.specs.Prelude.{◌↔◌, IsTrue, IfOk};
ghost use Rattle.read_faults.specs.DeckFaults.{SaysStart, HasStart, AreDeckFaults};

use crate::all_faults::all_faults;
use crate::deck_so_far::DeckSoFar;
use crate::first_past::first_past;
use crate::placed_fault::PlacedFault;
use crate::slip::Slip;
use read_decks::{Deck, DeckFault, DeckLine, Lines, Loading};
use std::alloc::{AllocError, Global};

/// All faults of a deck's text, in the order of their lines: of each line that has one the fault
/// that a reader would find first, where lines with faults count as comments; and last `NoStart`,
/// where no line says where to start. A text that is too long has that one fault, at the first line
/// past a limit.
///
/// # Errors
///
/// Where there is no memory for what the lines give, or for the faults.
pub fn deck_faults(alloc: Global, text: &[u8]) -> Result<Vec<PlacedFault<DeckFault>>, AllocError>
    ensures { IfOk result (λ faults. AreDeckFaults text.now faults.items) }
{
    if let Some((number, line)) = first_past(text, Deck::LINES, Deck::LINE) {
        let mut faults = Vec::new(alloc);
        faults.push(PlacedFault {
            fault: DeckFault::TooLong,
            line: Some(number),
            earlier: None,
            slip: Slip::of_long(line),
        })?;
        return Ok(faults);
    }
    let loading = Loading::new(alloc)?;
    let mut faults = all_faults(alloc, DeckSoFar { loading }, text)?;
    if !has_start(text) {
        faults.push(PlacedFault {
            fault: DeckFault::NoStart,
            line: None,
            earlier: None,
            slip: None,
        })?;
    }
    Ok(faults)
}

/// Whether a line says where to start, on the drum or not.
fn says_start(line: &[u8]) -> bool
    ensures { IsTrue result ↔ SaysStart line.now }
{
    matches!(DeckLine::read(line), Some(DeckLine::Start(_)))
}

/// Whether some line of a text says where to start.
fn has_start(text: &[u8]) -> bool
    ensures { IsTrue result ↔ HasStart text.now }
{
    for line in (Lines { rest: text }) {
        if says_start(line) {
            return true;
        }
    }
    false
}
