//! A net: nodes with links from one to the other. Each link takes some time, and is charged prices,
//! or pays by them.

use std::alloc::{AllocError, Global};

/// How often a price is charged, or, below 0, pays.
#[derive(Clone, Copy)]
pub struct Charge {
    /// The index of the price.
    pub price: usize,
    pub times: i128,
}

/// What a link stands for: an edge of a row.
#[derive(Clone, Copy)]
pub struct Step {
    /// The number of the row's site.
    pub site: usize,
    /// The place of the edge in the row.
    pub edge: usize,
}

/// A link from a node.
#[derive(Drop)]
pub struct Link {
    /// The node that it begins at.
    pub from: usize,
    /// The node that it leads to; `None` of an end.
    pub onto: Option<usize>,
    pub time: i128,
    /// The index of the price by which it pays.
    pub mark: Option<u8>,
    pub charges: Vec<Charge>,
    /// What it stands for, if it leads on.
    pub step: Option<Step>,
}

/// How a price stands among the others.
#[derive(Clone, Copy)]
pub struct Rank {
    /// How often it is charged where it is charged anew.
    pub most: i128,
    /// The prices that stand inside of it, a bit of each, by its index.
    pub inner: u64,
}

/// The links of a node.
#[derive(Clone, Copy)]
struct Span {
    first: usize,
    end: usize,
}

/// Nodes with their links, in an order in which every link that doesn't pay leads on.
#[derive(Drop)]
pub struct Net {
    pub links: Vec<Link>,
    spans: Vec<Span>,
    /// Of each node its place: nodes of one place do for one another in a walk.
    at: Vec<usize>,
    /// How many numbers of places there are.
    places: usize,
    /// Of each node a link that leads to it, the last one that was added.
    into: Vec<Option<usize>>,
    /// Of each link another one that leads to where it does, added before it.
    earlier: Vec<Option<usize>>,
    pub start: usize,
    /// What is charged at the start.
    pub begun: Vec<Charge>,
    /// The prices.
    pub ranks: Vec<Rank>,
}

impl Net {
    /// So many nodes, none of which has a link yet.
    pub fn new(alloc: Global, nodes: usize, ranks: Vec<Rank>) -> Result<Net, AllocError> {
        Ok(Net {
            links: Vec::new(alloc),
            spans: Vec::new(alloc),
            at: Vec::new(alloc),
            places: 0,
            into: vec![in alloc; None; nodes]?,
            earlier: Vec::new(alloc),
            start: 0,
            begun: Vec::new(alloc),
            ranks,
        })
    }

    /// Adds the links of the next node, which is at this place.
    pub fn add_node(&mut self, place: usize, links: Vec<Link>) -> Result<(), AllocError> {
        self.at.push(place)?;
        self.places = self.places.max(place.saturating_add(1));
        let first = self.links.len();
        for link in links {
            self.add(link)?;
        }
        let end = self.links.len();
        self.spans.push(Span { first, end })?;
        Ok(())
    }

    /// Adds a link.
    fn add(&mut self, link: Link) -> Result<(), AllocError> {
        let number = self.links.len();
        let mut before = None;
        if let Some(onto) = link.onto
            && let Some(last) = self.into.get_mut(onto)
        {
            before = *last;
            *last = Some(number);
        }
        self.earlier.push(before)?;
        self.links.push(link)?;
        Ok(())
    }

    /// How many numbers of places there are.
    pub fn places(&self) -> usize {
        self.places
    }

    /// The place of a node.
    pub fn place(&self, node: usize) -> usize {
        self.at.get(node).copied().unwrap_or(usize::MAX)
    }

    /// How many nodes there are.
    pub fn len(&self) -> usize {
        self.into.len()
    }

    /// The link with a number.
    pub fn link(&self, number: usize) -> Option<&Link> {
        self.links.get(number)
    }

    /// Where a link leads.
    pub fn onto(&self, link: usize) -> Option<usize> {
        self.links.get(link)?.onto
    }

    /// The first of a node's links, and the one behind the last.
    pub fn span(&self, node: usize) -> (usize, usize) {
        match self.spans.get(node) {
            Some(span) => (span.first, span.end),
            None => (0, 0),
        }
    }

    /// A link that leads to a node.
    pub fn last_onto(&self, node: usize) -> Option<usize> {
        match self.into.get(node) {
            Some(link) => *link,
            None => None,
        }
    }

    /// Another link that leads to where this one does.
    pub fn before(&self, link: usize) -> Option<usize> {
        match self.earlier.get(link) {
            Some(before) => *before,
            None => None,
        }
    }
}
