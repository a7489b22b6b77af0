//! What documents have as a bound, as a ceiling, and what limits a run of theirs: the bound or,
//! past the limit of one and of long notes, a ceiling.
//!
//! Code. `limits` finds each of them. Definitions: `Limits` says what is known of documents, and
//! why it isn't. Proofs: `Limiting` says why there is no ceiling; it serves crates above too.
#![tactic(auto)]

mod limits;

pub use limits::{bound_of, bracket_of, ceiling_of, limit_of};
