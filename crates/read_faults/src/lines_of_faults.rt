//! The lines of all faults of texts.

ghost use Rattle.std.specs.Prelude.{◌≡◌, ℕ, List, ◌++◌, codes, IfOk, Some};
ghost use Rattle.std.specs.Prelude.{option_map};
ghost use Rattle.read_toml.specs.LongNotes as of_notes;
ghost use Rattle.read_toml.specs.TimesDocument as of_times;
ghost use Rattle.read_faults.specs.FaultLines.{AreDocumentLines, AreFaultLines};
ghost use Rattle.read_faults.specs.FaultLines.{AreLinesOfInputs};
ghost use Rattle.read_faults.specs.NamedTexts.{named, complaint_said};

use crate::fault_text::{
    with_deck_faults, with_input_faults, with_loaded, with_message, with_notes_faults,
    with_times_faults,
};
use crate::faults_of_deck::deck_faults;
use crate::faults_of_inputs::input_faults;
use crate::loaded::loaded_twice;
use crate::named_text::NamedText;
use read_toml::{Complaint, long_notes_faults, times_faults, toml_complaint};
use std::alloc::{AllocError, Global};

/// The lines of all faults of a deck, a timing table and long notes, and of inputs where there are
/// any; empty where they have none. Of a timing table or notes that are no document, the last line
/// is what `toml` says, and where. Where deck and inputs are sound, each location that both load is
/// a fault of the inputs, and has its line.
///
/// # Errors
///
/// [`AllocError`] where there is no memory.
pub fn fault_lines(
    alloc: Global,
    deck: NamedText<'_>,
    times: NamedText<'_>,
    notes: NamedText<'_>,
    inputs: Option<NamedText<'_>>,
) -> Result<Vec<u8>, AllocError>
    ensures { IfOk result (λ lines. AreFaultLines (named deck.entry) (named times.entry)
        (named notes.entry) (option_map named inputs.entry) lines.items) }
{
    let faults = deck_faults(alloc, deck.bytes)?;
    let text = with_deck_faults(Vec::new(alloc), deck.name, &faults)?;
    let text = with_times(alloc, text, times)?;
    let text = with_notes(alloc, text, notes)?;
    let text = with_inputs(alloc, text, deck, inputs)?;
    Ok(text)
}

/// Behind a text the lines of all faults of a timing table.
fn with_times(alloc: Global, text: Vec<u8>, times: NamedText<'_>) -> Result<Vec<u8>, AllocError>
    ensures { IfOk result (λ new. (lines : List ℕ)
        × AreDocumentLines of_times.times_faults (codes "times") (named times.entry) lines
        × (new.items ≡ text.items ++ lines)) }
{
    let faults = times_faults(alloc, times.bytes)?;
    let complaint = toml_complaint(alloc, times.bytes)?;
    let text = with_times_faults(text, times.name, faults)?;
    with_complaint(text, times.name, complaint)
}

/// Behind a text the lines of all faults of long notes.
fn with_notes(alloc: Global, text: Vec<u8>, notes: NamedText<'_>) -> Result<Vec<u8>, AllocError>
    ensures { IfOk result (λ new. (lines : List ℕ)
        × AreDocumentLines of_notes.long_notes_faults (codes "notes") (named notes.entry) lines
        × (new.items ≡ text.items ++ lines)) }
{
    let faults = long_notes_faults(alloc, notes.bytes)?;
    let complaint = toml_complaint(alloc, notes.bytes)?;
    let text = with_notes_faults(text, notes.name, faults)?;
    with_complaint(text, notes.name, complaint)
}

/// Behind a text the lines of all faults of inputs, where there are any.
fn with_inputs(
    alloc: Global,
    text: Vec<u8>,
    deck: NamedText<'_>,
    inputs: Option<NamedText<'_>>,
) -> Result<Vec<u8>, AllocError>
    ensures { IfOk result (λ new. (lines : List ℕ)
        × AreLinesOfInputs (named deck.entry) (option_map named inputs.entry) lines
        × (new.items ≡ text.items ++ lines)) }
{
    match inputs {
        None => Ok(text),
        Some(inputs) => with_lines_of(alloc, text, deck, inputs),
    }
}

/// Behind a text the lines of all faults of inputs, with those of what the deck loads too.
fn with_lines_of(
    alloc: Global,
    text: Vec<u8>,
    deck: NamedText<'_>,
    inputs: NamedText<'_>,
) -> Result<Vec<u8>, AllocError>
    ensures { IfOk result (λ new. (lines : List ℕ)
        × AreLinesOfInputs (named deck.entry) (Some (named inputs.entry)) lines
        × (new.items ≡ text.items ++ lines)) }
{
    let faults = input_faults(alloc, inputs.bytes)?;
    let text = with_input_faults(text, inputs.name, &faults)?;
    let loaded = loaded_twice(alloc, deck.bytes, inputs.bytes)?;
    with_loaded(text, inputs.name, &loaded)
}

/// Behind a text what `toml` says, if it says anything.
fn with_complaint(
    text: Vec<u8>,
    name: &str,
    complaint: Option<Complaint>,
) -> Result<Vec<u8>, AllocError>
    ensures { IfOk result (λ new. new.items ≡ text.items ++ complaint_said name.now complaint) }
{
    match complaint {
        None => Ok(text),
        Some(complaint) => with_message(
            text,
            name,
            complaint.line,
            complaint.column,
            complaint.message.as_str(),
        ),
    }
}
