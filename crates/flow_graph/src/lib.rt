//! The flow of a deck under its notes: the executed locations, the hops of each, and walks of the
//! flow graph, of which a run that keeps to the notes is one.
//!
//! Code, from the bottom up. `instructions` (allowed at a location) and `hops` are iterators that
//! store no more than one instruction and its ways. `patterns` are those of a location, with the
//! deck's own instruction as one. `alike` says up to which data address instructions write the same
//! words, or have the same ways. `location_set` is a set of locations in the order in which they
//! are found, and `successors` adds those of a location to it, pattern by pattern. A `node` is a
//! location with what is open there at the exits of calls; `nodes` is a set of them, and `openings`
//! finds what is open behind a step. `place` says whether one location is in order (faults 32 and
//! 33). `discovery` has `discover`, which makes the `Flow` of `flow_graph` whatever stands at its
//! locations, `rediscover`, for where it was made before, and `flow`, which looks whether they are
//! in order; each gives up past 65,536 nodes (fault 37). `refusal` is why an analysis refuses a
//! deck, and `cycle` the locations of one, the smallest first. `longest` is the latest end of a
//! hop.
//!
//! Definitions, in the order to read them: `Hops` (hops, edges, nodes, and what is executed),
//! `Executed` (the order of discovery), `Taken` (whether a step may go on from one location to
//! another), `Accepted` (when a deck is, when a location is in order, and each refusal), `Walk`,
//! `RunHops` (the hops of a run), `Bounded` (what no kept run uses more than), and `Longest` (the
//! latest clock at which a hop can end, with the most units that its operation may have). `Profile`
//! says by which ways an instruction of the profile may end. `MostPasses` has the number that no
//! walk passes a mark more often than. `Passes` says that a pass raises the counts. The others say
//! what the code's types and loops mean by these: of hops `Patterns`, `Instructions`, `HopsLeft`,
//! `Seen` and `Alike`; of discovery `InNodes`, `Discovered`, `Found`, `Refused` and `Flow` (with
//! `OneProof`, that what it asks for has one proof); of cycles `Turned`; of walks `SettingOf`.
//!
//! Proofs. These have laws that other crates use: `Among`, whether a location is one of some;
//! `LongestLaws`, of the latest ends; `FromAngles`, how long a hop takes from an angle;
//! `DataAngles`, with which D as long; `Orders`, of the order of discovery; `KeptWalk`, why a kept
//! run is a walk; `Adding`, lemmas on lists that grow. `Links` has which nodes edges lead to, with
//! `InNodesLaws` and `KeptOpen` on what is open there. `PassLaws` shows how often a walk passes a
//! mark.
#![tactic(auto)]

pub mod alike;
mod cycle;
mod discovery;
mod flow_graph;
mod hops;
mod instructions;
pub mod location_set;
pub mod longest;
mod node;
mod nodes;
mod openings;
pub mod patterns;
pub mod place;
mod refusal;
mod successors;

pub use cycle::Cycle;
pub use discovery::{discover, flow, rediscover};
pub use flow_graph::Flow;
pub use hops::{Hop, Hops};
pub use refusal::Refusal;
