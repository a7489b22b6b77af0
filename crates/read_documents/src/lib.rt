//! The documents of the program, a deck, a timing table and notes, as files and the joined form
//! hold them: which files are opened, in which order, and how each is read.
//!
//! Code, from the bottom up. `documents` is a deck with its timing table and notes. A `source`
//! opens files and takes each text back. `files` reads a file to its limit, and the documents and
//! the inputs that files hold; `texts` reads the texts alone, for a check. `joined` has the parts
//! of a joined form, and `joined_input` the documents of one.
//!
//! Definitions, in the order to read them: `Documents` says which texts say documents. Then come
//! the texts of a joined form (`Joined`) and of files (`Files`, of a check `TextsIn`). `Asked` is
//! what is asked of a source: which files, in which order. `PartsOf` and `TextsOf` are the texts as
//! the code holds them.
//!
//! Proofs. Of the joined form `Cuts`, `Joining` and `Giving`; of files `Asking` and `Refusing`.
//! `Asking` serves crates above too.
#![tactic(auto)]

mod documents;
mod files;
mod joined;
mod joined_input;
mod source;
mod texts;

pub use documents::Documents;
pub use files::{documents_in, documents_with_inputs};
pub use joined_input::documents_of;
pub use source::Source;
pub use texts::{Texts, texts_with_inputs};
