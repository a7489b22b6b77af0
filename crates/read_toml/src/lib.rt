//! The two documents beside a deck, the timing table and the notes, as TOML says them. Each is
//! read, or refused for its first fault; or all its faults are told. Of bytes that are no document
//! it is told what `toml` says, and where.
//!
//! Code, from the bottom up. `document` reads bytes as a TOML table, and its folder looks at one:
//! `document/fields` at its keys (there a key's path is put together), `document/value` at a value
//! by itself, `document/values` at the values of keys; `document/element` says what is asked of an
//! element of an array of tables, and `document/tables` reads such arrays. `document/faults` and
//! `document/table_faults` gather what is wrong. Each rule of a document stands once, where its
//! faults are gathered; a document is refused for the first of them, and read where there is none.
//! So each kind of element has its check and its reading in one file: `notes/read_list` lists and
//! their patterns, `notes/read_call` calls, with `notes/opened`, which looks for what earlier ones
//! open, and `notes/read_mark` the marks of long notes, with `notes/mark_faults` for the checks of
//! their keys, `notes/read_edges` for their edges, and `notes/named`, which looks for the names of
//! earlier marks. `notes/short_mark` checks the marks of short notes, which are read as those of
//! long ones. `notes/faults` gathers all faults of notes, with `notes/repeated_faults` for edges
//! and locations that stand there twice, and `notes/read` reads notes. `times/faults` gathers all
//! faults of a timing table, and `times/read` and `times/read_entry` read one. `complaint` has what
//! `toml` says of bytes that are no document. `laws` has those laws of the definitions that other
//! crates call.
//!
//! Definitions, in the order to read them: `Document` has what documents share, the faults of a
//! table first of all. `TimesDocument` has the faults of a timing table, and what one without
//! faults says. `NotesDocument` has the same of lists, `LongMarks` of the marks of long notes and
//! `Calls` of their calls; `Notes` puts the faults of short and of long notes together, and says
//! what notes say. `Refused` says which fault a document is refused for, `AllFaults` that all are
//! told, and `Says` which timing table and which notes bytes say. `Complaint` is a place in bytes.
//! `Value`, `Opened` and `Elements` say what the code means by a value's fault, by what a call
//! opens, and by a table that holds something.
//!
//! Proofs. `Adding` follows faults as they are added, one behind the other, and `Faultless` says
//! what holds where a check finds none. `TimesEntries` shows that a timing table without a fault
//! says entries; `Elements` goes through arrays of tables, each of which without a fault holds a
//! pattern, a list or a call (`Holding`) or a mark (`HoldingMarks`); `Sound` shows that what is
//! said is sound, and `NotesThere` that a document without a fault says notes, and that one which
//! has none as short notes has none as long ones. `AllFaultsLaws` is about the first of all faults.
#![tactic(auto)]

mod complaint;
mod document;
pub mod laws;
mod notes;
mod times;

pub use complaint::{Complaint, toml_complaint};
pub use notes::faults::long_notes_faults;
pub use notes::read::{NotesRead, read_long_notes, read_notes, read_notes_of};
pub use times::faults::times_faults;
pub use times::read::read_times;
