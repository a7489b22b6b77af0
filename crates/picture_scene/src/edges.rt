//! Which edges the walk takes, and how often.

use flow_walks::Visit;
use machine_steps::Way;
use std::alloc::{AllocError, Global};
use std::collections::HashMap;

/// How many edges are drawn at most.
pub const MOST_EDGES: usize = 600;

/// From which word to which, by their locations' numbers.
#[derive(Clone, Copy, PartialEq, Eq, PartialOrd, Ord, Hash)]
pub struct Edge {
    pub from: u16,
    pub onto: u16,
}

/// An edge that the walk takes.
#[derive(Clone, Copy)]
pub struct TakenEdge {
    pub edge: Edge,
    /// How often.
    pub taken: u128,
}

/// The edges that the walk takes.
#[derive(Drop)]
pub struct Edges {
    /// Those that it takes most, these first.
    pub drawn: Vec<TakenEdge>,
    /// How many there are.
    pub count: usize,
}

impl Edge {
    /// The edge that a hop takes; `None` where it goes on at no location.
    pub fn of(visit: &Visit) -> Option<Edge> {
        match visit.way {
            Way::To(onto) => Some(Edge {
                from: visit.place.number(),
                onto: onto.number(),
            }),
            Way::Early | Way::Late => None,
        }
    }
}

/// How often each edge is taken, counted hop by hop.
#[derive(Drop)]
pub struct EdgeCounts {
    counts: HashMap<Edge, u64>,
}

impl EdgeCounts {
    /// Of no hop yet.
    pub fn new(alloc: Global) -> EdgeCounts {
        EdgeCounts {
            counts: HashMap::new(alloc),
        }
    }

    /// Counts a hop that is taken once.
    pub fn count(&mut self, visit: &Visit) -> Result<(), AllocError> {
        if let Some(edge) = Edge::of(visit) {
            let taken = self.counts.entry(edge)?.or_insert(0u64);
            *taken = taken.saturating_add(1);
        }
        Ok(())
    }
}

impl Edges {
    /// None yet.
    fn new(alloc: Global) -> Edges {
        Edges {
            drawn: Vec::new(alloc),
            count: 0,
        }
    }

    /// The edges of hops that are taken once each.
    pub fn of_visits(alloc: Global, visits: &[Visit]) -> Result<Edges, AllocError> {
        let mut counts = EdgeCounts::new(alloc);
        for visit in visits {
            counts.count(visit)?;
        }
        Edges::of_counts(alloc, &counts)
    }

    /// The edges that were counted.
    pub fn of_counts(alloc: Global, counts: &EdgeCounts) -> Result<Edges, AllocError> {
        let mut edges = Edges::new(alloc);
        for (edge, taken) in counts.counts.iter() {
            edges.add(*edge, u128::from(*taken))?;
        }
        edges.keep_most()?;
        Ok(edges)
    }

    /// The edges that these are, the same ones together.
    pub fn together(alloc: Global, taken: &[TakenEdge]) -> Result<Edges, AllocError> {
        let mut counts = HashMap::new(alloc);
        for one in taken {
            let sum = counts.entry(one.edge)?.or_insert(0u128);
            *sum = sum.saturating_add(one.taken);
        }
        let mut edges = Edges::new(alloc);
        for (edge, taken) in counts.iter() {
            edges.add(*edge, *taken)?;
        }
        edges.keep_most()?;
        Ok(edges)
    }

    /// Adds an edge.
    fn add(&mut self, edge: Edge, taken: u128) -> Result<(), AllocError> {
        // so that there is memory for few, however many there are
        if self.drawn.len() >= 4 * MOST_EDGES {
            self.keep_most()?;
        }
        self.drawn.push(TakenEdge { edge, taken })?;
        self.count = self.count.saturating_add(1);
        Ok(())
    }

    /// Keeps those that the walk takes most.
    fn keep_most(&mut self) -> Result<(), AllocError> {
        self.drawn.sort_by_key(|one| (u128::MAX - one.taken, one.edge.from, one.edge.onto))?;
        self.drawn.truncate(MOST_EDGES);
        Ok(())
    }
}
