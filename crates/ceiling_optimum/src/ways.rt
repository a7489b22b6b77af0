//! The longest ways from all nodes of a net to one, or from one to all, at prices.

use crate::budget::Budget;
use crate::net::Net;
use crate::prices::Prices;
use std::alloc::{AllocError, Global};

/// What the way of each node comes to, and the link that it begins with, or that it ends with.
#[derive(Drop)]
pub struct Ways {
    goal: usize,
    length: Vec<Option<i128>>,
    by: Vec<Option<usize>>,
}

impl Ways {
    /// None but that of the one node, which has no link.
    fn none(alloc: Global, net: &Net, goal: usize) -> Result<Ways, AllocError> {
        let mut ways = Ways {
            goal,
            length: vec![in alloc; None; net.len()]?,
            by: vec![in alloc; None; net.len()]?,
        };
        if let Some(length) = ways.length.get_mut(goal) {
            *length = Some(0);
        }
        Ok(ways)
    }

    /// Those to a node.
    pub fn to(
        alloc: Global,
        net: &Net,
        prices: &Prices,
        goal: usize,
        budget: &mut Budget,
    ) -> Result<Ways, AllocError> {
        let mut ways = Ways::none(alloc, net, goal)?;
        for _ in 0..net.len() {
            if !ways.sweep_onward(net, prices) || !budget.spend(net.links.len() as u64) {
                break;
            }
        }
        Ok(ways)
    }

    /// Those from a node.
    pub fn from(
        alloc: Global,
        net: &Net,
        prices: &Prices,
        goal: usize,
        budget: &mut Budget,
    ) -> Result<Ways, AllocError> {
        let mut ways = Ways::none(alloc, net, goal)?;
        for _ in 0..net.len() {
            if !ways.sweep_back(net, prices) || !budget.spend(net.links.len() as u64) {
                break;
            }
        }
        Ok(ways)
    }

    /// What the way of a node comes to.
    pub fn at(&self, node: usize) -> Option<i128> {
        match self.length.get(node) {
            Some(length) => *length,
            None => None,
        }
    }

    /// Looks along all links, the last first. Whether that makes a longer way.
    fn sweep_onward(&mut self, net: &Net, prices: &Prices) -> bool {
        let mut is_more = false;
        for number in (0..net.links.len()).rev() {
            is_more |= self.look_onward(net, prices, number);
        }
        is_more
    }

    /// Looks back along all links, the first first. Whether that makes a longer way.
    fn sweep_back(&mut self, net: &Net, prices: &Prices) -> bool {
        let mut is_more = false;
        for number in 0..net.links.len() {
            is_more |= self.look_back(net, prices, number);
        }
        is_more
    }

    /// Looks along a link to the way from where it leads. Whether that makes a longer one.
    fn look_onward(&mut self, net: &Net, prices: &Prices, number: usize) -> bool {
        let Some(link) = net.link(number) else {
            return false;
        };
        let Some(onto) = link.onto else {
            return false;
        };
        let Some(behind) = self.at(onto) else {
            return false;
        };
        let length = behind.saturating_add(prices.cost(link.time, &link.charges));
        self.raise(link.from, length, number)
    }

    /// Looks back along a link to the way to where it begins. Whether that makes a longer one.
    fn look_back(&mut self, net: &Net, prices: &Prices, number: usize) -> bool {
        let Some(link) = net.link(number) else {
            return false;
        };
        let Some(onto) = link.onto else {
            return false;
        };
        let Some(before) = self.at(link.from) else {
            return false;
        };
        let length = before.saturating_add(prices.cost(link.time, &link.charges));
        self.raise(onto, length, number)
    }

    /// Takes a way for a node, if it is longer than the one that is known. Whether it is.
    fn raise(&mut self, node: usize, length: i128, by: usize) -> bool {
        if node == self.goal || self.at(node).is_some_and(|known| known >= length) {
            return false;
        }
        if let Some(entry) = self.length.get_mut(node) {
            *entry = Some(length);
        }
        if let Some(entry) = self.by.get_mut(node) {
            *entry = Some(by);
        }
        true
    }

    /// The link of a node.
    fn link_of(&self, node: usize) -> Option<usize> {
        match self.by.get(node) {
            Some(link) => *link,
            None => None,
        }
    }

    /// Adds the links of the way from a node to the goal.
    pub fn add_onward(
        &self,
        net: &Net,
        node: usize,
        links: &mut Vec<usize>,
    ) -> Result<(), AllocError> {
        let mut at = node;
        for _ in 0..self.by.len() {
            let Some(number) = self.link_of(at) else {
                break;
            };
            links.push(number)?;
            at = net.onto(number).unwrap_or(self.goal);
        }
        Ok(())
    }

    /// Adds the links of the way from the goal to a node.
    pub fn add_back(
        &self,
        alloc: Global,
        net: &Net,
        node: usize,
        links: &mut Vec<usize>,
    ) -> Result<(), AllocError> {
        let mut back = Vec::new(alloc);
        let mut at = node;
        for _ in 0..self.by.len() {
            let Some(number) = self.link_of(at) else {
                break;
            };
            back.push(number)?;
            at = net.link(number).map_or(self.goal, |link| link.from);
        }
        back.reverse();
        for number in &back {
            links.push(*number)?;
        }
        Ok(())
    }
}
