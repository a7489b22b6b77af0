ghost use Rattle.std.specs.Prelude.{IfOk, IfErr};
ghost use Rattle.read_documents.specs.Documents.{Say, SayNone, texts_of};

use base_notes::{Notes, Times};
use print_lines::Fault;
use read_decks::{Deck, deck_of};
use read_toml::{NotesRead, read_notes_of, read_times};
use std::alloc::Global;

/// A deck, its timing table and its notes.
#[derive(Debug, Drop)]
pub struct Documents {
    pub deck: Deck,
    pub times: Times,
    pub notes: Notes,
}

impl Documents {
    /// The documents that three texts say, checked one after the other, where such notes are read.
    ///
    /// # Errors
    ///
    /// The fault of the first text that has one.
    pub fn of_texts(
        alloc: Global,
        deck: &[u8],
        times: &[u8],
        notes: &[u8],
        read: NotesRead,
    ) -> Result<Documents, Fault>
        ensures said { IfOk result (Say read (texts_of deck.now times.now notes.now)) }
        ensures fault { IfErr result (SayNone read (texts_of deck.now times.now notes.now)) }
    {
        let deck = deck_of(alloc, deck)?;
        let times = match read_times(alloc, times) {
            Ok(times) => times,
            Err(fault) => return Err(Fault::Times(fault)),
        };
        match read_notes_of(alloc, read, notes) {
            Ok(notes) => Ok(Documents { deck, times, notes }),
            Err(fault) => Err(Fault::Notes(fault)),
        }
    }
}
