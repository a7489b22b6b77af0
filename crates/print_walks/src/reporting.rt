//! The report of an analysis: where the word times of its walk go.

ghost use Rattle.std.specs.Prelude.{◌≡◌, ◌<◌, ◌^◌, length};
ghost use Rattle.bound_scan.specs.AnalysisOf.{visits_of};
ghost use Rattle.base_devices.specs.Device.{failures_after};
ghost use Rattle.print_lines.specs.Stands.{Passes};
ghost use Rattle.print_walks.specs.Report.{report_text};
ghost use Rattle.print_walks.specs.Written.{IsWritten};

mod lines;
mod tallies;
mod tally;

use crate::failed_write::WriteFault;
use base_devices::Output;
use base_notes::Notes;
use bound_scan::Analysis;
use lines::{put_cards, put_marks, put_other};
use print_lines::{Sheet, put_bound};
use read_decks::Deck;
use tallies::Tallies;

/// Puts the report of an analysis, which is not long.
fn put_report<O: Output>(
    sheet: &mut Sheet,
    writer: &mut O,
    analysis: &Analysis,
    deck: &Deck,
    notes: &Notes,
)
    ensures text { Passes (O.device writer.old) sheet.old (O.device writer.new) sheet.new
        (report_text deck.now notes.now (visits_of analysis.now)) }
    ensures short { length (report_text deck.now notes.now (visits_of analysis.now)) < 2 ^ 64 }
{
    let bound = analysis.bound();
    let marks = notes.marks();
    let tallies = Tallies::of(analysis.walk(), deck, marks);
    put_cards(sheet, writer, deck, &tallies.cards);
    put_other(sheet, writer, &tallies.other);
    put_marks(sheet, writer, marks, &tallies.passed);
    put_bound(sheet, writer, bound);
}

/// Writes the report of an analysis: for each card of the deck how often the walk visits its
/// locations and the word times that it spends there, the same for all other locations, how often
/// it passes each mark of the notes, and the bound. All is counted from the analysis's walk, so any
/// deck and notes may be given. It takes no memory.
///
/// # Errors
///
/// Where a write fails or takes no byte: then a prefix of the text has gone out, of as many bytes
/// as the fault says.
pub fn report<O: Output>(
    analysis: &Analysis,
    deck: &Deck,
    notes: &Notes,
    writer: &mut O,
) -> Result<(), WriteFault>
    ensures written { IsWritten (O.device writer.old).written (O.device writer.new).written result
        (report_text deck.now notes.now (visits_of analysis.now)) }
    ensures failures { (O.device writer.new).failures
        ≡ failures_after result (O.device writer.old).failures }
{
    let mut sheet = Sheet::new();
    put_report(&mut sheet, writer, analysis, deck, notes);
    sheet.finish(writer)?;
    Ok(())
}
