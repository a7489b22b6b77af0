//! The longest ways from the nodes of a net to an end, at prices.

use crate::budget::Budget;
use crate::cycles::cycles_of;
use crate::net::Net;
use crate::prices::Prices;
use std::alloc::{AllocError, Global};

/// What looking for the longest ways comes to.
#[derive(Drop)]
pub enum Looked {
    /// They were found.
    Settled,
    /// There are none, since these cycles take longer than they pay; each by its links.
    Cycles(Vec<Vec<usize>>),
    /// The steps were used up before that.
    Spent,
}

/// The longest ways that were found.
#[derive(Drop)]
pub struct Longest<'a> {
    alloc: Global,
    net: &'a Net,
    /// By node, what the way comes to.
    ahead: Vec<Option<i128>>,
    /// By node, the link that it begins with.
    by: Vec<Option<usize>>,
    /// By link, what it takes at the prices.
    costs: Vec<i128>,
    /// By node, whether it is to be looked at, since there is a longer way behind it.
    is_due: Vec<bool>,
}

impl<'a> Longest<'a> {
    /// None yet.
    pub fn none(alloc: Global, net: &'a Net) -> Result<Longest<'a>, AllocError> {
        Ok(Longest {
            alloc,
            net,
            ahead: vec![in alloc; None; net.len()]?,
            by: vec![in alloc; None; net.len()]?,
            costs: vec![in alloc; 0; net.links.len()]?,
            is_due: vec![in alloc; true; net.len()]?,
        })
    }

    /// Looks for them at prices.
    pub fn look(&mut self, prices: &Prices, budget: &mut Budget) -> Result<Looked, AllocError> {
        self.begin(prices);
        let _ = budget.spend(self.costs.len() as u64);
        for _ in 0..self.ahead.len() {
            if !budget.spend(self.ahead.len() as u64) {
                return Ok(Looked::Spent);
            }
            if !self.sweep(budget) {
                return Ok(Looked::Settled);
            }
            let cycles = cycles_of(self.alloc, self.net, &self.by)?;
            if !cycles.is_empty() {
                return Ok(Looked::Cycles(cycles));
            }
        }
        Ok(Looked::Spent)
    }

    /// Begins anew, at prices.
    fn begin(&mut self, prices: &Prices) {
        for (cost, link) in self.costs.iter_mut().zip(&self.net.links) {
            *cost = prices.cost(link.time, &link.charges);
        }
        for ahead in self.ahead.iter_mut() {
            *ahead = None;
        }
        for by in self.by.iter_mut() {
            *by = None;
        }
        for is_due in self.is_due.iter_mut() {
            *is_due = true;
        }
    }

    /// Looks at all nodes that are due, the last first. Whether some are due anew.
    fn sweep(&mut self, budget: &mut Budget) -> bool {
        let mut is_more = false;
        for node in (0..self.is_due.len()).rev() {
            if self.take_due(node) {
                is_more |= self.look_at(node, budget);
            }
        }
        is_more
    }

    /// Whether a node is due; it isn't any more.
    fn take_due(&mut self, node: usize) -> bool {
        match self.is_due.get_mut(node) {
            Some(is_due) => {
                let was_due = *is_due;
                *is_due = false;
                was_due
            }
            None => false,
        }
    }

    /// Looks along the links of a node. Whether a node is due for it that comes no sooner.
    fn look_at(&mut self, node: usize, budget: &mut Budget) -> bool {
        let (first, end) = self.net.span(node);
        let before = self.at(node);
        let mut most = before;
        let mut by = None;
        for link in first..end {
            let along = self.along(link);
            if along > most {
                most = along;
                by = Some(link);
            }
        }
        let _ = budget.spend(end.saturating_sub(first) as u64);
        if by.is_none() {
            return false;
        }
        self.set(node, most, by);
        self.set_due(node)
    }

    /// What a way comes to that begins with a link.
    fn along(&self, link: usize) -> Option<i128> {
        let cost = self.costs.get(link).copied()?;
        match self.net.link(link)?.onto {
            Some(onto) => Some(self.at(onto)?.saturating_add(cost)),
            None => Some(cost),
        }
    }

    /// What the way from a node comes to.
    pub fn at(&self, node: usize) -> Option<i128> {
        match self.ahead.get(node) {
            Some(ahead) => *ahead,
            None => None,
        }
    }

    /// Puts down the way from a node.
    fn set(&mut self, node: usize, ahead: Option<i128>, by: Option<usize>) {
        if let Some(entry) = self.ahead.get_mut(node) {
            *entry = ahead;
        }
        if let Some(entry) = self.by.get_mut(node) {
            *entry = by;
        }
    }

    /// All nodes from which links lead to this one are due. Whether one of them doesn't come before
    /// it in the order.
    fn set_due(&mut self, node: usize) -> bool {
        let mut is_later = false;
        let mut next = self.net.last_onto(node);
        for _ in 0..self.costs.len() {
            let Some(number) = next else {
                break;
            };
            if let Some(link) = self.net.link(number)
                && let Some(is_due) = self.is_due.get_mut(link.from)
            {
                *is_due = true;
                is_later |= link.from >= node;
            }
            next = self.net.before(number);
        }
        is_later
    }

    /// What is owed in all at the start, in parts of the prices' unit.
    pub fn total(&self, prices: &Prices) -> Option<i128> {
        let begun = prices.cost(0, &self.net.begun);
        Some(self.at(self.net.start)?.saturating_add(begun))
    }

    /// The links of the way from the start.
    pub fn path(&self) -> Result<Vec<usize>, AllocError> {
        let mut links = Vec::new(self.alloc);
        let mut at = Some(self.net.start);
        for _ in 0..self.by.len() {
            let Some(node) = at else {
                break;
            };
            let Some(Some(link)) = self.by.get(node) else {
                break;
            };
            links.push(*link)?;
            at = self.net.onto(*link);
        }
        Ok(links)
    }
}
