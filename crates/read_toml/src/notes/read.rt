//! Notes, short ones alone or long ones, read from a document; or the first fault of the document.

ghost use Rattle.std.specs.Prelude.{◌≡◌, [], IfOk, IfErr};
ghost use Rattle.read_toml.specs.LongNotes.{IsLongNotes, long_notes_faults};
ghost use Rattle.read_toml.specs.Refused.{IsDocument, IsFirst, IsRefused};
ghost use Rattle.read_toml.specs.Says.{AreNoNotesOf, IsNotesOf, SayNotesOf, faults_of};
ghost use Rattle.read_toml.specs.ShortNotes.{IsNotes, notes_faults};
ghost use Rattle.toml.specs.Data.{Members};
ghost use Rattle.toml.specs.View.{table_view};

use crate::document::faults::Faults;
use crate::document::fields::Fields;
use crate::document::read_document;
use base_notes::{Call, Listing, Mark, NoteFault, Notes, Programmed};
use std::alloc::{AllocError, Global};
use toml::Table;

pub const PROGRAMMED: [(&str, Programmed); 3] = [
    ("stop", Programmed::Stop),
    ("run", Programmed::Run),
    ("any", Programmed::Any),
];

pub const LOAD_CARDS: [(&str, bool); 2] = [("none", false), ("any", true)];

/// Which notes are read.
#[derive(Clone, Copy)]
pub enum NotesRead {
    /// Short notes alone: up to 8 marks, each on one edge.
    Short,
    /// Long notes: up to 64 marks, each on one edge or several, names, and calls. Short notes are
    /// long notes too.
    Long,
}

/// Reads notes: a TOML document with the keys `programmed` and `load_cards`, and optionally `mark`
/// and `list`.
///
/// # Errors
///
/// Toml or Memory; else the first of these that there is: unknown keys in byte order; missing keys;
/// what is wrong with `programmed`, with `load_cards`, with the marks, with the lists; two marks on
/// one edge; two lists for one location.
pub fn read_notes(alloc: Global, bytes: &[u8]) -> Result<Notes, NoteFault>
    ensures read { IfOk result (λ notes. (whole : Members) × IsDocument bytes.now whole
        × IsNotes whole notes) }
    ensures refused { IfErr result (IsRefused notes_faults bytes.now) }
{
    read_notes_of(alloc, NotesRead::Short, bytes)
}

/// Reads long notes: a TOML document with the keys `programmed` and `load_cards`, and optionally
/// `mark`, `list` and `call`. Short notes are long notes too, and mean the same.
///
/// # Errors
///
/// Those of [`crate::read_notes`], in the same order, and behind what is wrong with the lists what
/// is wrong with the calls; of a mark its unknown keys in byte order, its missing keys, and what is
/// wrong with `from`, `to`, `edges`, `most`, `inside`, `name`; of a call likewise, with `from`,
/// `to`, `exit`, `back`. An exit is out of range where an earlier call has it on the same edge.
pub fn read_long_notes(alloc: Global, bytes: &[u8]) -> Result<Notes, NoteFault>
    ensures read { IfOk result (λ notes. (whole : Members) × IsDocument bytes.now whole
        × IsLongNotes whole notes) }
    ensures refused { IfErr result (IsRefused long_notes_faults bytes.now) }
{
    read_notes_of(alloc, NotesRead::Long, bytes)
}

/// Reads notes of a kind.
///
/// # Errors
///
/// Those of [`read_notes`] or of [`read_long_notes`].
pub fn read_notes_of(alloc: Global, read: NotesRead, bytes: &[u8]) -> Result<Notes, NoteFault>
    ensures says { IfOk result (SayNotesOf read bytes.now) }
    ensures refused { IfErr result (AreNoNotesOf read bytes.now) }
{
    let table = read_document(alloc, bytes)?;
    read_table(alloc, read, &table)
}

/// The notes that a document is, or its first fault.
fn read_table(alloc: Global, read: NotesRead, table: &Table) -> Result<Notes, NoteFault>
    ensures said { IfOk result (IsNotesOf read (table_view table.now)) }
    ensures first { IfErr result (IsFirst (faults_of read (table_view table.now))) }
{
    let mut faults = Faults::new(alloc);
    faults.notes(alloc, read, table)?;
    faults.refuse()?;
    Ok(notes_in(alloc, table)?)
}

/// The long notes that a document without faults is.
fn notes_in(alloc: Global, table: &Table) -> Result<Notes, AllocError>
    requires { long_notes_faults (table_view table.now) ≡ [] }
    ensures { IfOk result (IsLongNotes (table_view table.now)) }
{
    let top = Fields {
        alloc,
        at: "",
        table,
        whole: table,
    };
    let programmed = top.chosen("programmed", &PROGRAMMED);
    let load_cards = top.chosen("load_cards", &LOAD_CARDS);
    let marks: Vec<Mark> = top.elements("mark")?;
    let lists: Vec<Listing> = top.elements("list")?;
    let calls: Vec<Call> = top.elements("call")?;
    Ok(Notes::new(programmed, load_cards, marks, lists, calls))
}
