//! A text in memory, with what is said of a fault behind it.

ghost use Rattle.std.specs.Prelude.{◌≡◌, ◌++◌, codes, decimal, flat_map, map, IfOk};
ghost use Rattle.read_faults.specs.FaultLines.{at_line, earlier_text, slip_said, slip_text};
ghost use Rattle.read_faults.specs.FaultLines.{placed_text, deck_fault_text, input_fault_text};
ghost use Rattle.read_faults.specs.FaultLines.{note_fault_text, complaint_text, loaded_text};
ghost use Rattle.read_faults.specs.FaultLines.{more_text, told_text};
ghost use Rattle.print_lines.specs.FaultText.{fault_text};

use crate::alike::{first_alike, more_alike};
use crate::placed_fault::PlacedFault;
use crate::slip::Slip;
use base_devices::{Output, Writing};
use base_notes::NoteFault;
use base_words::Location;
use itoa::Buffer;
use print_lines::{Fault, tell_fault};
use read_decks::DeckFault;
use read_replays::InputFault;
use std::alloc::AllocError;

/// Some bytes.
fn with_bytes(mut text: Vec<u8>, bytes: &[u8]) -> Result<Vec<u8>, AllocError>
    ensures { IfOk result (λ new. new.items ≡ text.items ++ bytes.now) }
{
    text.extend_from_slice(bytes)?;
    Ok(text)
}

/// A number.
fn with_decimal(mut text: Vec<u8>, number: usize) -> Result<Vec<u8>, AllocError>
    ensures { IfOk result (λ new. new.items ≡ text.items ++ decimal number) }
{
    let mut buffer = Buffer::new();
    text.extend_from_slice(buffer.format(number).as_bytes())?;
    Ok(text)
}

/// A colon and a number.
fn with_number(text: Vec<u8>, number: usize) -> Result<Vec<u8>, AllocError>
    ensures { IfOk result (λ new. new.items ≡ text.items ++ codes ":" ++ decimal number) }
{
    with_decimal(with_bytes(text, b":")?, number)
}

/// Where a fault stands: in the file of this name, at this line, if at one.
fn with_place(text: Vec<u8>, name: &str, line: Option<u16>) -> Result<Vec<u8>, AllocError>
    ensures { IfOk result (λ new. new.items ≡ text.items ++ at_line name.now line) }
{
    let text = with_bytes(text, name.as_bytes())?;
    match line {
        None => with_bytes(text, b": "),
        Some(line) => with_bytes(with_number(text, usize::from(line))?, b": "),
    }
}

/// The line of a fault.
fn with_fault(text: Vec<u8>, fault: &Fault) -> Result<Vec<u8>, AllocError>
    ensures { IfOk result (λ new. new.items ≡ text.items ++ fault_text fault.now) }
{
    let mut writing = Writing::new(text);
    tell_fault(&mut writing, fault);
    if writing.failures() > 0 {
        return Err(AllocError);
    }
    Ok(writing.writer)
}

/// The earlier line that a fault points at, if it points at one.
fn with_earlier(text: Vec<u8>, name: &str, line: Option<u16>) -> Result<Vec<u8>, AllocError>
    ensures { IfOk result (λ new. new.items ≡ text.items ++ earlier_text name.now line) }
{
    match line {
        None => Ok(text),
        Some(_) => with_bytes(with_place(text, name, line)?, b"the first is here\n"),
    }
}

/// What is said of what was done to a line.
fn said(slip: Slip) -> &'static [u8]
    ensures { result.now ≡ slip_said slip }
{
    match slip {
        Slip::ByteOrderMark => b"the line begins with a byte order mark\n",
        Slip::Utf16 => b"the text is UTF-16\n",
        Slip::CarriageReturn => b"the line ends with a carriage return\n",
        Slip::Empty => b"the line is empty\n",
        Slip::Tab => b"the line has a tab\n",
        Slip::BlankAtEnd => b"the line ends with a blank\n",
        Slip::CommentBehind => b"a comment stands behind the words\n",
        Slip::LetterO => b"the line has a letter O for a zero\n",
        Slip::LetterL => b"the line has a letter l for a one\n",
        Slip::NoSign => b"a word has no sign\n",
        Slip::ManyWords => b"the line has more than 7 words\n",
        Slip::InParts => b"the instruction is in parts\n",
        Slip::SignBehind => b"a sign stands behind its word\n",
        Slip::Colon => b"a colon stands behind the location\n",
        Slip::NotTenWords => b"a card has ten words\n",
        Slip::OneDigit => b"the angle has two digits\n",
        Slip::SmallLetters => b"the line has small letters\n",
    }
}

/// What was done to a line, if it is known.
fn with_slip(
    text: Vec<u8>,
    name: &str,
    line: Option<u16>,
    slip: Option<Slip>,
) -> Result<Vec<u8>, AllocError>
    ensures { IfOk result (λ new. new.items ≡ text.items ++ slip_text name.now line slip) }
{
    match slip {
        None => Ok(text),
        Some(slip) => with_bytes(with_place(text, name, line)?, said(slip)),
    }
}

/// The lines of a fault that has a place.
fn with_place_of<F>(
    text: Vec<u8>,
    name: &str,
    placed: &PlacedFault<F>,
    fault: &Fault,
) -> Result<Vec<u8>, AllocError>
    ensures { IfOk result (λ new.
        new.items ≡ text.items ++ placed_text (fault_text fault.now) name.now placed.now) }
{
    let text = with_place(text, name, placed.line)?;
    let text = with_fault(text, fault)?;
    let text = with_earlier(text, name, placed.earlier)?;
    with_slip(text, name, placed.line, placed.slip)
}

/// How many more lines are like this one.
fn with_more(
    text: Vec<u8>,
    name: &str,
    more: usize,
    line: Option<u16>,
) -> Result<Vec<u8>, AllocError>
    ensures { IfOk result (λ new. new.items ≡ text.items ++ more_text name.now more line) }
{
    let Some(line) = line else {
        return Ok(text);
    };
    let text = with_place(text, name, None)?;
    let text = with_decimal(text, more)?;
    let text = with_bytes(text, b" more lines like line ")?;
    let text = with_decimal(text, usize::from(line))?;
    with_bytes(text, b"\n")
}

/// What is told of a fault among all faults of its text: of many that are alike the first alone.
fn with_fault_line<F>(
    text: Vec<u8>,
    name: &str,
    faults: &[PlacedFault<F>],
    placed: &PlacedFault<F>,
    fault: &Fault,
) -> Result<Vec<u8>, AllocError>
    ensures { IfOk result (λ new. new.items
        ≡ text.items ++ told_text (fault_text fault.now) name.now faults.now placed.now) }
{
    let Some(more) = more_alike(faults, placed.slip) else {
        return with_place_of(text, name, placed, fault);
    };
    if first_alike(faults, placed.slip) != placed.line {
        return Ok(text);
    }
    let text = with_place_of(text, name, placed, fault)?;
    with_more(text, name, more, placed.line)
}

/// The lines of faults of a deck.
pub fn with_deck_faults(
    mut text: Vec<u8>,
    name: &str,
    faults: &[PlacedFault<DeckFault>],
) -> Result<Vec<u8>, AllocError>
    ensures { IfOk result (λ new.
        new.items ≡ text.items ++ flat_map (deck_fault_text name.now faults.now) faults.now) }
{
    for placed in faults {
        text = with_fault_line(text, name, faults, placed, &Fault::Deck(placed.fault))?;
    }
    Ok(text)
}

/// The lines of faults of inputs.
pub fn with_input_faults(
    mut text: Vec<u8>,
    name: &str,
    faults: &[PlacedFault<InputFault>],
) -> Result<Vec<u8>, AllocError>
    ensures { IfOk result (λ new.
        new.items ≡ text.items ++ flat_map (input_fault_text name.now faults.now) faults.now) }
{
    for placed in faults {
        text = with_fault_line(text, name, faults, placed, &Fault::Inputs(placed.fault))?;
    }
    Ok(text)
}

/// The lines of locations that both a deck and inputs load.
pub fn with_loaded(
    mut text: Vec<u8>,
    name: &str,
    loaded: &[Location],
) -> Result<Vec<u8>, AllocError>
    ensures { IfOk result (λ new. new.items ≡ text.items
        ++ flat_map (loaded_text name.now) (map (λ location. location.number) loaded.now)) }
{
    for location in loaded {
        text = with_placed(text, name, &Fault::Loaded(*location))?;
    }
    Ok(text)
}

/// The line of a fault of a document.
fn with_placed(text: Vec<u8>, name: &str, fault: &Fault) -> Result<Vec<u8>, AllocError>
    ensures { IfOk result (λ new.
        new.items ≡ text.items ++ at_line name.now None ++ fault_text fault.now) }
{
    let text = with_place(text, name, None)?;
    with_fault(text, fault)
}

/// The lines of faults of a timing table.
pub fn with_times_faults(
    mut text: Vec<u8>,
    name: &str,
    faults: Vec<NoteFault>,
) -> Result<Vec<u8>, AllocError>
    ensures { IfOk result (λ new. new.items
        ≡ text.items ++ flat_map (note_fault_text name.now (codes "times")) faults.items) }
{
    for fault in faults {
        text = with_placed(text, name, &Fault::Times(fault))?;
    }
    Ok(text)
}

/// The lines of faults of notes.
pub fn with_notes_faults(
    mut text: Vec<u8>,
    name: &str,
    faults: Vec<NoteFault>,
) -> Result<Vec<u8>, AllocError>
    ensures { IfOk result (λ new. new.items
        ≡ text.items ++ flat_map (note_fault_text name.now (codes "notes")) faults.items) }
{
    for fault in faults {
        text = with_placed(text, name, &Fault::Notes(fault))?;
    }
    Ok(text)
}

/// The line of what `toml` says.
pub fn with_message(
    text: Vec<u8>,
    name: &str,
    line: usize,
    column: usize,
    message: &str,
) -> Result<Vec<u8>, AllocError>
    ensures { IfOk result (λ new.
        new.items ≡ text.items ++ complaint_text name.now line column message.now) }
{
    let text = with_bytes(text, name.as_bytes())?;
    let text = with_number(text, line)?;
    let text = with_number(text, column)?;
    let text = with_bytes(text, b": ")?;
    let text = with_bytes(text, message.as_bytes())?;
    with_bytes(text, b"\n")
}
