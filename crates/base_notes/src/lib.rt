//! What stands beside a deck: the timing table, which says how long each operation takes, and the
//! notes, which say what the program may do. Which documents say them, `read_toml` knows.
//!
//! Code, from the bottom up. `entry` is a row of the timing table, and `times` the table. `notes`
//! is what notes answer. Its folder has the types that they are made of: `notes/edge`,
//! `notes/edges` and `notes/name`, which are parts of `notes/mark` (it knows on which edges it
//! stands, which of some marks stands on one, and how many there may be), `notes/call`,
//! `notes/listing`, `notes/pattern` and `notes/programmed`. `fault` is why a document is neither,
//! and `key_path` how a fault names a key.
//!
//! Definitions, in the order to read them: `Edges` says what leads from one location onto another,
//! `Marks` on which edges marks stand, `Allowed` what notes are and which instructions they allow,
//! and `Short` which notes are short. `Names` says what a mark may be called. The others say what
//! the code's types mean by these: `EdgeOf` what an edge is, `Entries` what a timing table holds,
//! and `Listed` what a list and notes say.
//!
//! Proofs. `Matching` (what is listed for a pattern) serves `machine_emulator` too.
#![tactic(auto)]

mod entry;
mod fault;
mod key_path;
mod notes;
mod times;

pub use entry::Entry;
pub use fault::NoteFault;
pub use key_path::KeyPath;
pub use notes::Notes;
pub use notes::call::Call;
pub use notes::edge::Edge;
pub use notes::edges::Edges;
pub use notes::listing::Listing;
pub use notes::mark::Mark;
pub use notes::name::Name;
pub use notes::pattern::Pattern;
pub use notes::programmed::Programmed;
pub use times::Times;
