//! What the program says of documents where a question is asked of them.
//!
//! Code, from the top down. `answering` answers a question: by the `analysis` of the documents, or
//! by a `basis` where it is of a worst walk. `shares` are where the word times of that go, for its
//! picture. `telling` writes what is said to standard output.
//!
//! Definitions, in the order to read them: `Says` is what is said, and why nothing is; `Shares` is
//! what its pictures end with. `Basis` says what the code means by what a worst walk is told by.
#![tactic(auto)]

mod analysis;
mod answering;
mod basis;
mod shares;
mod telling;

pub use answering::answer_question;
