//! When a deck is accepted under its notes: each is, or is refused for the first of what stands
//! against it.
//!
//! Code, from the bottom up. `ordered_flow` is what comes of an accepted deck, a flow with an
//! order. Its maker looks that the notes have no calls, and goes through the checks: `altering`
//! (with `fixed`; fault 34), `size` (with `counts`; fault 36) and `free_order` (with `free`, the
//! graph of the edges free of marks; fault 35); or, where the notes may have calls and the size may
//! be any, through these without the size. `acceptance` has `accept`, which hands out the flow
//! alone.
//!
//! Definitions: `Acceptance` (which refusal is given; `flow_graph` has when a deck is accepted).
//! The others say what the code means by these: `Altering`, `Fixed`, `Size`, `Free` and
//! `OrderedFlow`.
//!
//! Proofs. These have laws that other crates use: `Acceptances`, why a deck is accepted; `Plain`,
//! of nodes where notes have no calls; `Products`, of products as they are counted; `FreeRows`, of
//! the edges free of marks; `Heights`, of orders in which every edge goes on; `Alterations`, of
//! words that are altered; `Translations`, of indices and their nodes. `Flags` is on words that are
//! fixed.
#![tactic(auto)]

mod acceptance;
mod altering;
pub mod counts;
pub mod fixed;
pub mod free;
mod free_order;
mod ordered_flow;
mod size;

pub use acceptance::accept;
pub use ordered_flow::OrderedFlow;
