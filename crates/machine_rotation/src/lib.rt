//! The rotation of the drum: what takes time, as clocks that go on, and the laws of such times one
//! after the other.
//!
//! Code. `clockwork` has the trait of all that takes time. `at_angle`, `at_parity` and `seek` are
//! waits, and `delay` is a time that is the same from every clock. By `then` and `optional` they
//! become a chain. `chain` has the laws of chains, over those of the trait alone, and of single
//! waits.
//!
//! Definitions, in the order to read them: `Moment` says what the first moment is at which the
//! angle has a property. `Available` says at which angles a word can be had: under the heads, if it
//! stands on the drum. `Recurs` and `Waits` have the laws of all waits, and `Span` says how long
//! each takes at most.
//!
//! Proofs. `Waited`, of waits, and `Clockworks`, the laws of any chain, serve other crates;
//! `Firsts` shows that each wait finds the first moment.
#![tactic(auto)]

mod at_angle;
mod at_parity;
pub mod chain;
mod clockwork;
mod delay;
mod optional;
mod seek;
mod then;

pub use at_angle::AtAngle;
pub use at_parity::AtParity;
pub use clockwork::Clockwork;
pub use delay::Delay;
pub use seek::Seek;
pub use then::Then;
