//! The texts of a deck, a timing table and notes, and of inputs, read from their files, each to its
//! limit.

ghost use Rattle.std.specs.Prelude.{◌≡◌, ◌+◌, ◌^◌, ◌≤◌, IfOk, IfErr};
ghost use Rattle.std.specs.Prelude.{IsSome, option_map};
ghost use Rattle.print_lines.specs.FaultStatus.{failed_reads};
ghost use Rattle.read_documents.specs.Asked.{AsksFor, LooksFor};
ghost use Rattle.read_documents.specs.Asked.{inputs_named, name_in, named_in, named_with};
ghost use Rattle.read_documents.specs.TextsOf.{inputs_in, texts_in};
ghost use Rattle.read_documents.specs.Files.{AreTold, Contents, HoldsNoText, behind};
ghost use Rattle.read_documents.specs.TextsIn.{AreNoTextsHeld, AreNoneHeld, AreTextsHeld};
ghost use Rattle.read_documents.specs.TextsIn.{IsInputsText};

use crate::files::read_text;
use crate::source::Source;
use print_lines::{Fault, Part};
use program_command::Files;
use std::alloc::Global;

/// The bytes of a deck, a timing table and notes.
#[derive(Drop)]
pub struct Texts {
    pub deck: Vec<u8>,
    pub times: Vec<u8>,
    pub notes: Vec<u8>,
}

/// The text of inputs, where a file of inputs is named.
fn inputs_text<S: Source>(
    alloc: Global,
    source: &mut S,
    name: Option<&str>,
) -> Result<Option<Vec<u8>>, Fault>
    requires few { S.failed source.old ≤ 2 ^ 62 }
    ensures counted { S.failed source.new ≡ S.failed source.old + failed_reads result }
    ensures text { IfOk result (λ text. (held : Contents)
        → AreTold (S.files source.old) held (inputs_named (name_in name.entry))
        → IsInputsText held (name_in name.entry)
        (inputs_in (name_in name.entry)
        (option_map (λ bytes. bytes.items) text))) }
    ensures fault { IfErr result (λ fault. (held : Contents)
        → AreTold (S.files source.old) held (inputs_named (name_in name.entry))
        → IsSome (name_in name.entry) × HoldsNoText Part.Inputs (held Part.Inputs) fault) }
    ensures asked { AsksFor (S.asked source.old) (S.asked source.new)
        (LooksFor (inputs_named (name_in name.entry)) result) }
{
    let Some(name) = name else {
        return Ok(None);
    };
    let text = read_text(alloc, source, Part::Inputs, name)?;
    Ok(Some(text))
}

impl Texts {
    /// The texts in three files, read one after the other.
    ///
    /// # Errors
    ///
    /// Why the first of them that can't be had can't be: its file can't be opened or read, or is
    /// past its limit, or the program is out of memory.
    pub fn of_files<S: Source>(
        alloc: Global,
        source: &mut S,
        files: Files<'_>,
    ) -> Result<Texts, Fault>
        requires few { S.failed source.old ≤ 2 ^ 61 }
        ensures behind { IfOk result (λ _.
            S.files source.new ≡ behind (behind (behind (S.files source.old)))) }
        ensures counted { S.failed source.new ≡ S.failed source.old + failed_reads result }
        ensures held { IfOk result (λ texts. (held : Contents)
            → AreTold (S.files source.old) held (named_in files.entry)
            → AreTextsHeld held (texts_in texts)) }
        ensures fault { IfErr result (λ fault. (held : Contents)
            → AreTold (S.files source.old) held (named_in files.entry)
            → AreNoTextsHeld held fault) }
        ensures asked { AsksFor (S.asked source.old) (S.asked source.new)
            (LooksFor (named_in files.entry) result) }
    {
        let deck = read_text(alloc, source, Part::Deck, files.deck)?;
        let times = read_text(alloc, source, Part::Times, files.times)?;
        let notes = read_text(alloc, source, Part::Notes, files.notes)?;
        Ok(Texts { deck, times, notes })
    }
}

/// The texts in three files, and that of inputs, where a file of inputs is named.
///
/// # Errors
///
/// As [`Texts::of_files`]; else the same of the file of inputs.
pub fn texts_with_inputs<S: Source>(
    alloc: Global,
    source: &mut S,
    files: Files<'_>,
    name: Option<&str>,
) -> Result<(Texts, Option<Vec<u8>>), Fault>
    requires { S.failed source.old ≤ 2 ^ 61 }
    ensures texts { IfOk result (λ done. (held : Contents)
        → AreTold (S.files source.old) held (named_with files.entry (name_in name.entry))
        → AreTextsHeld held (texts_in done.0)) }
    ensures inputs { IfOk result (λ done. (held : Contents)
        → AreTold (S.files source.old) held (named_with files.entry (name_in name.entry))
        → IsInputsText held (name_in name.entry)
        (inputs_in (name_in name.entry) (option_map (λ bytes. bytes.items) done.1))) }
    ensures fault { IfErr result (λ fault. (held : Contents)
        → AreTold (S.files source.old) held (named_with files.entry (name_in name.entry))
        → AreNoneHeld held (name_in name.entry) fault) }
    ensures counted { S.failed source.new ≡ S.failed source.old + failed_reads result }
    ensures asked { AsksFor (S.asked source.old) (S.asked source.new)
        (LooksFor (named_with files.entry (name_in name.entry)) result) }
{
    let texts = Texts::of_files(alloc, source, files)?;
    let inputs = inputs_text(alloc, source, name)?;
    Ok((texts, inputs))
}
