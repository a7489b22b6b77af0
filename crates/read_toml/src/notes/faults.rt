//! All faults of notes.

ghost use Rattle.std.specs.Prelude.{◌≡◌, [], true, false, map, IfOk};
ghost use Rattle.read_toml.specs.AllFaults.{Adds, AreAllFaults};
ghost use Rattle.read_toml.specs.Kinds as kinds;
ghost use Rattle.read_toml.specs.LongNotes.{long_notes_faults};
ghost use Rattle.read_toml.specs.Says.{faults_of};
ghost use Rattle.toml.specs.View.{table_view};

use super::read::{LOAD_CARDS, NotesRead, PROGRAMMED};
use super::short_mark::ShortMark;
use crate::document::faults::{Faults, no_document};
use crate::document::fields::Fields;
use crate::document::read_document;
use base_notes::{Call, Listing, Mark, NoteFault};
use std::alloc::{AllocError, Global};
use toml::Table;

/// All faults of bytes that are to be long notes, in the order in which
/// [`crate::read_long_notes`] looks for the first; of bytes that are no document, that alone. There
/// is none exactly where the bytes are long notes. Edges that are there twice are told where the
/// marks have no other fault.
///
/// # Errors
///
/// [`AllocError`] where there is no memory.
pub fn long_notes_faults(alloc: Global, bytes: &[u8]) -> Result<Vec<NoteFault>, AllocError>
    ensures { IfOk result (λ faults.
        AreAllFaults long_notes_faults bytes.now faults.items) }
{
    let table = match read_document(alloc, bytes) {
        Ok(table) => table,
        Err(NoteFault::Toml) => return no_document(alloc),
        Err(_) => return Err(AllocError),
    };
    let mut faults = Faults::new(alloc);
    faults.notes(alloc, NotesRead::Long, &table)?;
    Ok(faults.all)
}

/// The keys that notes may have.
fn keys_of(read: NotesRead) -> &'static [&'static str]
    ensures { map (λ key. key.now) result.now ≡ kinds.keys_of read }
{
    match read {
        NotesRead::Short => &["programmed", "load_cards", "mark", "list"],
        NotesRead::Long => &["programmed", "load_cards", "mark", "list", "call"],
    }
}

impl Faults {
    /// Adds those of a document that is to be notes.
    pub fn notes(&mut self, alloc: Global, read: NotesRead, table: &Table) -> Result<(), AllocError>
        ensures { IfOk result (λ _. Adds self.old.all.items self.new.all.items
            (faults_of read (table_view table.now))) }
    {
        let top = Fields {
            alloc,
            at: "",
            table,
            whole: table,
        };
        self.unknown(&top, keys_of(read))?;
        self.missing(&top, &["programmed", "load_cards"])?;
        self.choice(&top, "programmed", &PROGRAMMED)?;
        self.choice(&top, "load_cards", &LOAD_CARDS)?;
        let fine = self.marks(&top, read)?;
        self.tables::<Listing>(&top, "list", 0, None)?;
        self.calls(&top, read)?;
        self.repeated_marks(&top, read, fine)?;
        self.repeated_lists(&top)?;
        Ok(())
    }

    /// Adds what is wrong with the marks, and tells whether nothing is.
    fn marks(&mut self, top: &Fields<'_>, read: NotesRead) -> Result<bool, AllocError>
        requires whole { table_view top.now.whole.now ≡ table_view top.now.table.now }
        requires top { top.now.at.now ≡ [] }
        ensures adds { IfOk result (λ _. Adds self.old.all.items self.new.all.items
            (kinds.marks_of read (table_view top.now.table.now))) }
        ensures fine { IfOk result (λ fine. fine ≡ true
            → kinds.marks_of read (table_view top.now.table.now) ≡ []) }
        ensures wrong { IfOk result (λ fine. fine ≡ false
            → kinds.repeated_of read (table_view top.now.table.now) ≡ []) }
    {
        let before = self.all.len();
        self.mark_tables(top, read)?;
        Ok(self.all.len() == before)
    }

    /// Adds what is wrong with the array of marks.
    fn mark_tables(&mut self, top: &Fields<'_>, read: NotesRead) -> Result<(), AllocError>
        requires whole { table_view top.now.whole.now ≡ table_view top.now.table.now }
        requires top { top.now.at.now ≡ [] }
        ensures { IfOk result (λ _. Adds self.old.all.items self.new.all.items
            (kinds.marks_of read (table_view top.now.table.now))) }
    {
        match read {
            NotesRead::Short => self.tables::<ShortMark>(top, "mark", 0, Some(Mark::MOST_SHORT)),
            NotesRead::Long => self.tables::<Mark>(top, "mark", 0, Some(Mark::MOST)),
        }
    }

    /// Adds what is wrong with the calls, which short notes don't have.
    fn calls(&mut self, top: &Fields<'_>, read: NotesRead) -> Result<(), AllocError>
        requires whole { table_view top.now.whole.now ≡ table_view top.now.table.now }
        requires top { top.now.at.now ≡ [] }
        ensures { IfOk result (λ _. Adds self.old.all.items self.new.all.items
            (kinds.calls_of read (table_view top.now.table.now))) }
    {
        match read {
            NotesRead::Short => Ok(()),
            NotesRead::Long => self.tables::<Call>(top, "call", 0, Some(Call::MOST)),
        }
    }

    /// Adds each edge that is there twice, where nothing is wrong with the marks.
    fn repeated_marks(
        &mut self,
        top: &Fields<'_>,
        read: NotesRead,
        fine: bool,
    ) -> Result<(), AllocError>
        requires whole { table_view top.now.whole.now ≡ table_view top.now.table.now }
        requires fine { fine ≡ true
            → kinds.marks_of read (table_view top.now.table.now) ≡ [] }
        requires wrong { fine ≡ false
            → kinds.repeated_of read (table_view top.now.table.now) ≡ [] }
        ensures { IfOk result (λ _. Adds self.old.all.items self.new.all.items
            (kinds.repeated_of read (table_view top.now.table.now))) }
    {
        if !fine {
            return Ok(());
        }
        let marks: Vec<Mark> = top.elements("mark")?;
        self.second_edges(top.alloc, &marks)?;
        Ok(())
    }
}
