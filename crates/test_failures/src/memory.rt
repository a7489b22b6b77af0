//! Calls that take memory answer that there is none, or what they always answer.
//!
//! `watched` makes each in a `window`, where memory may be refused, and `program` the program by
//! each of its commands; what a call answers is an `answer`. `subjects` are the decks. `spared` has
//! calls that make no request: reports and walks.

mod answer;
mod program;
mod spared;
mod subjects;
mod watched;
mod window;
