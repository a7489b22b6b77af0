//! A door: the flow graph, the bound with its walk and its table, and the ceiling. What stands here
//! is another crate's; its pages say what it promises.
//!
//! - [`flow`], the [`Flow`] graph that it finds, its [`Hops`], each [`Hop`] with its [`Way`], and a
//!   [`Refusal`] with a [`Cycle`], of `flow_graph` (`Way` of `machine_steps`).
//! - [`accept`], of `flow_acceptance`.
//! - [`analyse`], the [`Analysis`] that it gives with each [`Worst`] entry of its table, and
//!   [`bound`], of `bound_scan`; each [`Visit`] of its walk, of `flow_walks`. On a ledger of the
//!   caller's: [`analyse_counting`], [`CountedAnalysis`], [`bound_counting`] and [`Found`].
//! - [`ceiling`] with its [`Ceiling`], and [`reached`] with a [`Bracket`], of `ceiling_checked`;
//!   the walk [`InRounds`] beside it, of `ceiling_rounds`, with each [`Piece`], of `flow_walks`.
#![tactic(auto)]

pub use bound_scan::{
    Analysis, CountedAnalysis, Found, Worst, analyse, analyse_counting, bound, bound_counting,
};
pub use ceiling_checked::{Bracket, Ceiling, ceiling, reached};
pub use ceiling_rounds::InRounds;
pub use flow_acceptance::accept;
pub use flow_graph::{Cycle, Flow, Hop, Hops, Refusal, flow};
pub use flow_walks::{Piece, Placed, Rounds, Visit};
pub use machine_steps::Way;
