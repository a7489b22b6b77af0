//! A check of texts: all of their faults, or all that keeps the deck that they say from a bound.

ghost use Rattle.std.specs.Prelude.{◌≡◌, ◌≤◌, ◌^◌, [], IfOk, IfErr, option_map};
ghost use Rattle.read_decks.specs.InDeck.{loads_in, start_in};
ghost use Rattle.read_toml.specs.declared.notes.read.NotesRead.TheVariants.{Long};
ghost use Rattle.print_lines.specs.FaultStatus.{IsOutOfMemory};
ghost use Rattle.print_lines.specs.Output.{GetsResult};
ghost use Rattle.check_findings.specs.Lacking.{are_long, check_text, words_altered};
ghost use Rattle.check_findings.specs.LackingOf.{words_in};
ghost use Rattle.check_deck.specs.Findings.{AreFindings};
ghost use Rattle.check_deck.specs.FindingsOf.{found_in, is_long_in};
ghost use Rattle.read_faults.specs.NamedTexts.{named};
ghost use Rattle.read_documents.specs.Documents.{Say};
ghost use Rattle.read_documents.specs.TextsOf.{inputs_in, texts_in};
ghost use Rattle.read_documents.specs.Asked.{name_in};
ghost use Rattle.program_limits.specs.Limits.{IsDiscoveryFault};
ghost use Rattle.program_run.specs.Checked.{AreLacking, IsChecked, IsMemoryOfText};
ghost use Rattle.program_run.specs.SaysCheck.{AreLinesOfFaults, RefusesCheck, status_after_check};

use base_devices::Output;
use check_deck::Findings;
use check_findings::Lacking;
use print_lines::{Fault, Sheet, Status, end_result};
use program_command::Files;
use read_decks::laws::not_refused;
use read_documents::{Documents, Texts};
use read_faults::laws::sound_where_none;
use read_faults::{NamedText, fault_lines};
use read_toml::NotesRead;
use read_toml::laws::{says_long_notes, says_times};
use std::alloc::Global;

/// What a check of texts comes to.
#[derive(Drop)]
pub enum Checked {
    /// The lines of the faults that the texts have.
    Faulty(Vec<u8>),
    /// All that keeps what they say from a bound, and what is lacking.
    Sound(Findings, Lacking),
}

/// The lines of all faults of texts, in the files of these names.
fn lines_of(
    alloc: Global,
    files: Files<'_>,
    texts: &Texts,
    inputs: Option<NamedText<'_>>,
) -> Result<Vec<u8>, Fault>
    ensures lines { IfOk result (λ lines. AreLinesOfFaults files.entry (texts_in texts.now)
        (option_map named inputs.entry) lines.items) }
    ensures memory { IfErr result IsOutOfMemory }
{
    let deck = NamedText {
        name: files.deck,
        bytes: &texts.deck,
    };
    let times = NamedText {
        name: files.times,
        bytes: &texts.times,
    };
    let notes = NamedText {
        name: files.notes,
        bytes: &texts.notes,
    };
    match fault_lines(alloc, deck, times, notes, inputs) {
        Ok(lines) => Ok(lines),
        Err(_) => Err(Fault::Memory),
    }
}

/// A text of inputs with the name of its file, if there is one.
pub fn named_inputs<'a>(name: Option<&'a str>, text: &'a Option<Vec<u8>>) -> Option<NamedText<'a>>
    ensures { option_map named result ≡ inputs_in (name_in name.entry)
        (option_map (λ bytes. bytes.items) text.now) }
{
    match (name, text) {
        (Some(name), Some(bytes)) => Some(NamedText { name, bytes }),
        _ => None,
    }
}

/// All that keeps documents from having a bound, and what is lacking.
fn findings_of(alloc: Global, documents: &Documents) -> Result<(Findings, Lacking), Fault>
    ensures findings { IfOk result (λ checked. AreFindings (loads_in documents.now.deck)
        documents.now.notes (start_in documents.now.deck) (found_in checked.0)) }
    ensures long { IfOk result (λ checked. is_long_in checked.0
        ≡ are_long documents.now.notes (found_in checked.0)) }
    ensures lacking { IfOk result (λ checked.
        words_in checked.1 ≡ words_altered (found_in checked.0)) }
    ensures refused { IfErr result (IsDiscoveryFault documents.now) }
{
    let findings = Findings::of(alloc, &documents.deck, &documents.notes)?;
    let lacking = findings.lacking(alloc)?;
    Ok((findings, lacking))
}

/// That memory ran out, where a fault says so of a text.
fn memory_of(_fault: Fault) -> Fault
    requires { IsMemoryOfText _fault }
    ensures { result ≡ Fault.Memory }
{
    Fault::Memory
}

/// The documents that texts say which have no faults: only memory can be lacking.
fn sound_documents(
    alloc: Global,
    files: Files<'_>,
    texts: &Texts,
    inputs: Option<NamedText<'_>>,
) -> Result<Documents, Fault>
    requires { AreLinesOfFaults files (texts_in texts.now) (option_map named inputs) [] }
    ensures said { IfOk result (Say Long (texts_in texts.now)) }
    ensures memory { IfErr result IsOutOfMemory }
{
    sound_where_none();
    says_times();
    says_long_notes();
    not_refused();
    let (deck, times, notes) = (&texts.deck, &texts.times, &texts.notes);
    match Documents::of_texts(alloc, deck, times, notes, NotesRead::Long) {
        Ok(documents) => Ok(documents),
        Err(fault) => Err(memory_of(fault)),
    }
}

/// All that is wrong with texts, in the files of these names, and with inputs, where there are any:
/// each of their faults; or, where they have none, all that keeps the deck from having a bound
/// under its notes.
///
/// # Errors
///
/// Where the program is out of memory; or where there are too many nodes
/// ([`Refusal::TooMany`](flow_graph::Refusal::TooMany)).
pub fn check(
    alloc: Global,
    files: Files<'_>,
    texts: &Texts,
    inputs: Option<NamedText<'_>>,
) -> Result<Checked, Fault>
    ensures checked { IfOk result
        (IsChecked files.entry (texts_in texts.now) (option_map named inputs.entry)) }
    ensures lacking { IfOk result AreLacking }
    ensures refused { IfErr result (RefusesCheck (texts_in texts.now)) }
{
    let lines = lines_of(alloc, files, texts, inputs)?;
    if !lines.is_empty() {
        return Ok(Checked::Faulty(lines));
    }
    let documents = sound_documents(alloc, files, texts, inputs)?;
    let (findings, lacking) = findings_of(alloc, &documents)?;
    Ok(Checked::Sound(findings, lacking))
}

/// How the program ends after what was found: a word that nothing comes to may be meant so, and a
/// mark that doesn't say that it stands inside another one.
fn status_of(findings: &Findings) -> Status
    ensures { result ≡ status_after_check (found_in findings.now) }
{
    if findings.may_be_meant() {
        Status::Done
    } else {
        Status::Refused
    }
}

/// Writes all that keeps a deck from having a bound, and what is lacking.
pub fn tell_findings<O: Output>(out: &mut O, findings: &Findings, lacking: &Lacking) -> Status
    requires { words_in lacking.now ≡ words_altered (found_in findings.now) }
    ensures { GetsResult (O.device out.old) (O.device out.new)
        (check_text (is_long_in findings.now) (found_in findings.now))
        (status_after_check (found_in findings.now)) result }
{
    let mut sheet = Sheet::new();
    findings.put(&mut sheet, out, lacking);
    end_result(sheet, out, status_of(findings))
}
