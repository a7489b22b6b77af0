//! Files read, each to its limit, and checked one after the other.

ghost use Rattle.std.specs.Prelude.{◌≡◌, ◌+◌, ◌^◌, ◌≤◌, ℕ, List, Option, Some, IfOk, IfErr};
ghost use Rattle.std.specs.Prelude.{IfSome};
ghost use Rattle.print_lines.specs.FaultStatus.{failed_reads};
ghost use Rattle.read_documents.specs.Asked.{AsksFor, IsLookedAt, IsOfText, IsRead, LooksFor};
ghost use Rattle.read_documents.specs.Asked.{fault_in};
ghost use Rattle.read_documents.specs.Asked.{all_named_in, most_of, named_in, reading};
ghost use Rattle.read_documents.specs.Files.{AreHeld, AreHeldWithInputs, AreNotHeld};
ghost use Rattle.read_documents.specs.Files.{AreNotHeldWithInputs, AreTold, Contents, HoldsDeck};
ghost use Rattle.read_documents.specs.Files.{HoldsInputs, HoldsNoDeck, HoldsNoInputs, HoldsNoNotes};
ghost use Rattle.read_documents.specs.Files.{HoldsNotesOf, HoldsNoText, HoldsNoTimes, HoldsText};
ghost use Rattle.read_documents.specs.Files.{HoldsTimes, behind};
ghost use Rattle.read_documents.specs.Files as said;

use crate::documents::Documents;
use crate::joined_input;
use crate::source::Source;
use base_devices::{Input, WholeError, read_whole};
use base_notes::{Notes, Times};
use print_lines::{Fault, Part, PartFault};
use program_command::Files;
use read_decks::{Deck, DeckFault, deck_of};
use read_replays::{InputFault, Inputs, inputs_of};
use read_toml::{NotesRead, read_notes_of, read_times};
use std::alloc::Global;

/// The most bytes of a text of this part.
fn most_bytes(part: Part) -> usize
    ensures { result + 1 ≡ most_of part }
{
    match part {
        Part::Joined => joined_input::BYTES,
        Part::Deck => Deck::BYTES,
        Part::Times | Part::Notes => 8_388_608,
        Part::Inputs => Inputs::BYTES,
    }
}

/// The fault of a part whose text isn't read.
fn fault_by(part: Part, error: WholeError) -> Fault
    ensures { result ≡ said.fault_by part error }
{
    match (part, error) {
        (Part::Deck, WholeError::Read) => Fault::Deck(DeckFault::Read),
        (Part::Deck, WholeError::Memory) => Fault::Deck(DeckFault::Memory),
        (Part::Deck, WholeError::TooLong) => Fault::Deck(DeckFault::TooLong),
        (Part::Inputs, WholeError::Read) => Fault::Inputs(InputFault::Read),
        (Part::Inputs, WholeError::Memory) => Fault::Inputs(InputFault::Memory),
        (Part::Inputs, WholeError::TooLong) => Fault::Inputs(InputFault::TooLong),
        (_, WholeError::Read) => Fault::Part(part, PartFault::Read),
        (_, WholeError::Memory) => Fault::Memory,
        (_, WholeError::TooLong) => Fault::Part(part, PartFault::TooLong),
    }
}

/// Reads the whole text of a part, as many bytes as it may have. The fault says that a read failed
/// exactly where one did.
fn text_of<I: Input>(alloc: Global, part: Part, text: &mut I) -> Result<Vec<u8>, Fault>
    requires { I.called text.old ≤ 2 ^ 62 }
    ensures bytes { IfOk result (λ bytes. IfSome (I.unread text.old) (λ all.
        HoldsText part (Some all) bytes.items)) }
    ensures fault { IfErr result (λ fault. IfSome (I.unread text.old) (λ all.
        HoldsNoText part (Some all) fault)) }
    ensures counted { I.failed text.old ≡ 0 → I.failed text.new ≡ failed_reads result }
    ensures of { IsOfText part (fault_in result) }
    ensures all { I.called text.old ≡ 0 → I.failed text.old ≡ 0 → I.ended text.old ≡ 0
        → I.given text.old ≡ 0 → I.idle text.old ≡ 0 → IsRead (most_of part) (fault_in result)
        (reading (I.called text.new) (I.failed text.new) (I.ended text.new) (I.given text.new)
        (I.idle text.new)) }
{
    match read_whole(alloc, text, most_bytes(part)) {
        Ok(bytes) => Ok(bytes),
        Err(error) => Err(fault_by(part, error)),
    }
}

/// The text of a part, from its file.
///
/// # Errors
///
/// The file can't be opened or read, is past the part's limit, or the program is out of memory.
pub fn read_text<S: Source>(
    alloc: Global,
    source: &mut S,
    part: Part,
    name: &str,
) -> Result<Vec<u8>, Fault>
    requires few { S.failed source.old ≤ 2 ^ 62 }
    ensures behind { S.files source.new ≡ behind (S.files source.old) }
    ensures counted { S.failed source.new ≡ S.failed source.old + failed_reads result }
    ensures bytes { IfOk result (λ bytes. (file : Option (List ℕ))
        → S.files source.old 0 name.now ≡ Some file → HoldsText part file bytes.items) }
    ensures fault { IfErr result (λ fault. (file : Option (List ℕ))
        → S.files source.old 0 name.now ≡ Some file → HoldsNoText part file fault) }
    ensures asked { AsksFor (S.asked source.old) (S.asked source.new)
        (IsLookedAt part name.now (fault_in result)) }
{
    let Some(mut text) = source.fetch(name) else {
        return Err(Fault::Part(part, PartFault::Open));
    };
    let bytes = text_of(alloc, part, &mut text);
    source.close(text);
    bytes
}

/// The deck of a file.
fn deck_in<S: Source>(alloc: Global, source: &mut S, name: &str) -> Result<Deck, Fault>
    requires few { S.failed source.old ≤ 2 ^ 62 }
    ensures behind { S.files source.new ≡ behind (S.files source.old) }
    ensures counted { S.failed source.new ≡ S.failed source.old + failed_reads result }
    ensures deck { IfOk result (λ deck. (file : Option (List ℕ))
        → S.files source.old 0 name.now ≡ Some file → HoldsDeck file deck) }
    ensures fault { IfErr result (λ fault. (file : Option (List ℕ))
        → S.files source.old 0 name.now ≡ Some file → HoldsNoDeck file fault) }
    ensures asked { AsksFor (S.asked source.old) (S.asked source.new)
        (IsLookedAt Part.Deck name.now (fault_in result)) }
{
    let text = read_text(alloc, source, Part::Deck, name)?;
    let deck = deck_of(alloc, &text)?;
    Ok(deck)
}

/// The timing table of a file.
fn times_in<S: Source>(alloc: Global, source: &mut S, name: &str) -> Result<Times, Fault>
    requires few { S.failed source.old ≤ 2 ^ 62 }
    ensures behind { S.files source.new ≡ behind (S.files source.old) }
    ensures counted { S.failed source.new ≡ S.failed source.old + failed_reads result }
    ensures times { IfOk result (λ times. (file : Option (List ℕ))
        → S.files source.old 0 name.now ≡ Some file → HoldsTimes file times) }
    ensures fault { IfErr result (λ fault. (file : Option (List ℕ))
        → S.files source.old 0 name.now ≡ Some file → HoldsNoTimes file fault) }
    ensures asked { AsksFor (S.asked source.old) (S.asked source.new)
        (IsLookedAt Part.Times name.now (fault_in result)) }
{
    let text = read_text(alloc, source, Part::Times, name)?;
    match read_times(alloc, &text) {
        Ok(times) => Ok(times),
        Err(fault) => Err(Fault::Times(fault)),
    }
}

/// The notes of a file: short ones alone, or long ones.
fn notes_in<S: Source>(
    alloc: Global,
    source: &mut S,
    name: &str,
    read: NotesRead,
) -> Result<Notes, Fault>
    requires few { S.failed source.old ≤ 2 ^ 62 }
    ensures behind { S.files source.new ≡ behind (S.files source.old) }
    ensures counted { S.failed source.new ≡ S.failed source.old + failed_reads result }
    ensures notes { IfOk result (λ notes. (file : Option (List ℕ))
        → S.files source.old 0 name.now ≡ Some file → HoldsNotesOf read file notes) }
    ensures fault { IfErr result (λ fault. (file : Option (List ℕ))
        → S.files source.old 0 name.now ≡ Some file → HoldsNoNotes read file fault) }
    ensures asked { AsksFor (S.asked source.old) (S.asked source.new)
        (IsLookedAt Part.Notes name.now (fault_in result)) }
{
    let text = read_text(alloc, source, Part::Notes, name)?;
    match read_notes_of(alloc, read, &text) {
        Ok(notes) => Ok(notes),
        Err(fault) => Err(Fault::Notes(fault)),
    }
}

/// The inputs of a replay from their file.
///
/// # Errors
///
/// [`Fault::Part`] where it can't be opened; [`Fault::Inputs`] where it can't be read, or is
/// refused.
pub fn inputs_in<S: Source>(alloc: Global, source: &mut S, name: &str) -> Result<Inputs, Fault>
    requires few { S.failed source.old ≤ 2 ^ 62 }
    ensures behind { S.files source.new ≡ behind (S.files source.old) }
    ensures counted { S.failed source.new ≡ S.failed source.old + failed_reads result }
    ensures inputs { IfOk result (λ inputs. (file : Option (List ℕ))
        → S.files source.old 0 name.now ≡ Some file → HoldsInputs file inputs) }
    ensures fault { IfErr result (λ fault. (file : Option (List ℕ))
        → S.files source.old 0 name.now ≡ Some file → HoldsNoInputs file fault) }
    ensures asked { AsksFor (S.asked source.old) (S.asked source.new)
        (IsLookedAt Part.Inputs name.now (fault_in result)) }
{
    let text = read_text(alloc, source, Part::Inputs, name)?;
    let inputs = inputs_of(alloc, &text)?;
    Ok(inputs)
}

/// The documents of three files, read and checked one after the other, where such notes are read.
///
/// # Errors
///
/// The fault of the first file that has one: that it can't be opened or read or is past its
/// limit, or why its text is refused.
pub fn documents_in<S: Source>(
    alloc: Global,
    source: &mut S,
    files: Files<'_>,
    read: NotesRead,
) -> Result<Documents, Fault>
    requires few { S.failed source.old ≤ 2 ^ 61 }
    ensures behind { IfOk result (λ _.
        S.files source.new ≡ behind (behind (behind (S.files source.old)))) }
    ensures counted { S.failed source.new ≡ S.failed source.old + failed_reads result }
    ensures held { IfOk result (λ documents. (held : Contents)
        → AreTold (S.files source.old) held (named_in files.entry) → AreHeld read held documents) }
    ensures fault { IfErr result (λ fault. (held : Contents)
        → AreTold (S.files source.old) held (named_in files.entry) → AreNotHeld read held fault) }
    ensures asked { AsksFor (S.asked source.old) (S.asked source.new)
        (LooksFor (named_in files.entry) result) }
{
    let deck = deck_in(alloc, source, files.deck)?;
    let times = times_in(alloc, source, files.times)?;
    let notes = notes_in(alloc, source, files.notes, read)?;
    Ok(Documents { deck, times, notes })
}

/// The documents of three files, and the inputs of another.
///
/// # Errors
///
/// As [`documents_in`]; else [`Fault::Part`] where the file of the inputs can't be opened, and
/// [`Fault::Inputs`] where it can't be read, or is refused.
pub fn documents_with_inputs<S: Source>(
    alloc: Global,
    source: &mut S,
    files: Files<'_>,
    inputs: &str,
    read: NotesRead,
) -> Result<(Documents, Inputs), Fault>
    requires { S.failed source.old ≤ 2 ^ 61 }
    ensures held { IfOk result (λ done. (held : Contents)
        → AreTold (S.files source.old) held (all_named_in files.entry inputs.entry.now)
        → AreHeldWithInputs read held done) }
    ensures fault { IfErr result (λ fault. (held : Contents)
        → AreTold (S.files source.old) held (all_named_in files.entry inputs.entry.now)
        → AreNotHeldWithInputs read held fault) }
    ensures counted { S.failed source.new ≡ S.failed source.old + failed_reads result }
    ensures asked { AsksFor (S.asked source.old) (S.asked source.new)
        (LooksFor (all_named_in files.entry inputs.entry.now) result) }
{
    let documents = documents_in(alloc, source, files, read)?;
    let inputs = inputs_in(alloc, source, inputs)?;
    Ok((documents, inputs))
}
