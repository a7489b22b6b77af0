//! What the hops of a location take at most, by where they lead.

use crate::slot::Slot;
use flow_graph::Hop;

/// The hops that lead from where one instruction is found to where another is.
#[derive(Clone, Copy)]
pub struct Edge {
    /// Where they lead.
    pub onto: Slot,
    /// The most word times that they take, from when the one instruction is found to when the other
    /// is.
    pub time: u32,
    /// The most until one of them ends, and 49 more.
    pub stop: u32,
    /// The index of the mark that stands on the edge of their locations.
    pub mark: Option<u8>,
    /// One of them that takes the most word times.
    pub hop: Hop,
}

/// What the hops of a location take at most, from when its instruction is found at one angle.
#[derive(Drop)]
pub struct Row {
    /// The most word times until one of them ends that leads nowhere, and 49 more; 0 of none.
    pub stop: u32,
    /// One of those that ends last.
    pub last: Option<Hop>,
    /// The most until any of them ends, and 49 more; 0 of none.
    pub most: u32,
    /// Where they lead.
    pub edges: Vec<Edge>,
}
