//! Detours: a cycle that no other way comes to gets one, from a way that is taken, so that what the
//! shares say can be gone along by one walk.

use crate::budget::Budget;
use crate::net::Net;
use crate::prices::Prices;
use crate::shares::Part;
use crate::ways::Ways;
use std::alloc::{AllocError, Global};

/// How many detours are made at most.
const MOST: usize = 64;

/// A detour from a part: where its links are left, and where they are come back to.
#[derive(Clone, Copy)]
struct Detour {
    part: usize,
    leave: usize,
    back: usize,
    /// What it brings beside the links that it leaves out.
    gain: i128,
}

/// The making of detours, at prices.
#[derive(Drop)]
pub struct Detours<'a> {
    alloc: Global,
    net: &'a Net,
    prices: &'a Prices,
    pub parts: Vec<Part>,
    /// By place, whether the parts lead there.
    is_here: Vec<bool>,
}

impl<'a> Detours<'a> {
    /// Of these parts.
    pub fn of(
        alloc: Global,
        net: &'a Net,
        prices: &'a Prices,
        parts: Vec<Part>,
    ) -> Result<Detours<'a>, AllocError> {
        Ok(Detours {
            alloc,
            net,
            prices,
            parts,
            is_here: vec![in alloc; false; net.places()]?,
        })
    }

    /// Makes a detour to each part that the others don't come to.
    pub fn connect(&mut self, budget: &mut Budget) -> Result<(), AllocError> {
        for _ in 0..MOST {
            self.reach(budget);
            let Some(far) = self.far() else {
                break;
            };
            if budget.is_spent() || !self.lead_to(far, budget)? {
                break;
            }
        }
        Ok(())
    }

    /// Tells the places that the parts lead to from the start.
    fn reach(&mut self, budget: &mut Budget) {
        for is_here in self.is_here.iter_mut() {
            *is_here = false;
        }
        self.meet(self.net.start);
        let links = self.links();
        for _ in 0..self.parts.len() {
            if !self.spread() || !budget.spend(links) {
                break;
            }
        }
    }

    /// How many links the parts have in all.
    fn links(&self) -> u64 {
        let mut links: u64 = 0;
        for part in &self.parts {
            links = links.saturating_add(part.links.len() as u64);
        }
        links
    }

    /// A node is come to. Whether its place is new.
    fn meet(&mut self, node: usize) -> bool {
        let place = self.net.place(node);
        match self.is_here.get_mut(place) {
            Some(is_here) => {
                let is_new = !*is_here;
                *is_here = true;
                is_new
            }
            None => false,
        }
    }

    /// All places of parts that come through one are come to. Whether one is new.
    fn spread(&mut self) -> bool {
        let mut is_more = false;
        for index in 0..self.parts.len() {
            if self.is_come_to(index) {
                is_more |= self.meet_part(index);
            }
        }
        is_more
    }

    /// The places of a part are come to. Whether one is new.
    fn meet_part(&mut self, index: usize) -> bool {
        let mut is_more = false;
        let count = self.parts.get(index).map_or(0, |part| part.links.len());
        for place in 0..count {
            if let Some(node) = self.node_at(index, place) {
                is_more |= self.meet(node);
            }
        }
        is_more
    }

    /// Where a link of a part begins.
    fn node_at(&self, index: usize, place: usize) -> Option<usize> {
        let link = self.parts.get(index)?.links.get(place)?;
        Some(self.net.link(*link)?.from)
    }

    /// Whether a part is taken, and comes through a place that is come to.
    fn is_come_to(&self, index: usize) -> bool {
        let Some(part) = self.parts.get(index) else {
            return false;
        };
        if !part.is_taken() {
            return false;
        }
        for number in &part.links {
            if let Some(link) = self.net.link(*number)
                && self.is_here(link.from)
            {
                return true;
            }
        }
        false
    }

    /// Whether the place of a node is come to.
    fn is_here(&self, node: usize) -> bool {
        let place = self.net.place(node);
        self.is_here.get(place).copied().unwrap_or(false)
    }

    /// A part that is taken, and isn't come to.
    fn far(&self) -> Option<usize> {
        for (index, part) in self.parts.iter().enumerate() {
            if part.is_taken() && !self.is_come_to(index) {
                return Some(index);
            }
        }
        None
    }

    /// Leads a way that is come to by a part that isn't. Whether there is one.
    fn lead_to(&mut self, far: usize, budget: &mut Budget) -> Result<bool, AllocError> {
        let Some(goal) = self.node_at(far, 0) else {
            return Ok(false);
        };
        let there = Ways::to(self.alloc, self.net, self.prices, goal, budget)?;
        let back = Ways::from(self.alloc, self.net, self.prices, goal, budget)?;
        let mut best: Option<Detour> = None;
        for index in 0..self.parts.len() {
            if self.is_come_to(index) {
                best = greater(best, self.detour(index, &there, &back));
            }
        }
        let Some(best) = best else {
            return Ok(false);
        };
        let times = self.times_for(far);
        let links = self.links_by(best, &there, &back)?;
        self.put(best.part, links, times)?;
        Ok(true)
    }

    /// The best detour from a part.
    fn detour(&self, index: usize, there: &Ways, back: &Ways) -> Option<Detour> {
        let part = self.parts.get(index)?;
        let mut left: Option<Detour> = None;
        let mut best: Option<Detour> = None;
        let mut gone: i128 = 0;
        for (place, number) in part.links.iter().enumerate() {
            let Some(link) = self.net.link(*number) else {
                continue;
            };
            if let Some(way) = there.at(link.from) {
                left = greater(
                    left,
                    Some(Detour {
                        part: index,
                        leave: place,
                        back: place,
                        gain: way.saturating_add(gone),
                    }),
                );
            }
            if let (Some(left), Some(way)) = (left, back.at(link.from)) {
                best = greater(
                    best,
                    Some(Detour {
                        part: index,
                        leave: left.leave,
                        back: place,
                        gain: left.gain.saturating_add(way).saturating_sub(gone),
                    }),
                );
            }
            gone = gone.saturating_add(self.prices.cost(link.time, &link.charges));
        }
        best
    }

    /// How often a detour has to be made so that a part can be taken as often as it is.
    fn times_for(&self, far: usize) -> i128 {
        let Some(part) = self.parts.get(far) else {
            return 1;
        };
        let mut most: u128 = u128::MAX;
        for number in &part.links {
            if let Some(link) = self.net.link(*number)
                && let Some(mark) = link.mark
                && let Some(rank) = self.net.ranks.get(usize::from(mark))
            {
                most = most.min(rank.most.max(1).unsigned_abs());
            }
        }
        let times = part.times.max(1).unsigned_abs().div_ceil(most.max(1));
        i128::try_from(times).unwrap_or(i128::MAX)
    }

    /// The links of a part with a detour.
    fn links_by(
        &self,
        detour: Detour,
        there: &Ways,
        back: &Ways,
    ) -> Result<Vec<usize>, AllocError> {
        let mut links = Vec::new(self.alloc);
        let Some(part) = self.parts.get(detour.part) else {
            return Ok(links);
        };
        for link in part.links.iter().take(detour.leave) {
            links.push(*link)?;
        }
        if let Some(node) = self.node_at(detour.part, detour.leave) {
            there.add_onward(self.net, node, &mut links)?;
        }
        if let Some(node) = self.node_at(detour.part, detour.back) {
            back.add_back(self.alloc, self.net, node, &mut links)?;
        }
        for link in part.links.iter().skip(detour.back) {
            links.push(*link)?;
        }
        Ok(links)
    }

    /// Takes links in the place of those of a part, so many times.
    fn put(&mut self, index: usize, links: Vec<usize>, times: i128) -> Result<(), AllocError> {
        let Some(part) = self.parts.get_mut(index) else {
            return Ok(());
        };
        if part.is_path || times >= part.times {
            part.links = links;
            return Ok(());
        }
        part.times = part.times.saturating_sub(times);
        self.parts.push(Part {
            links,
            times,
            has_part: false,
            is_path: false,
        })?;
        Ok(())
    }
}

/// The detour that brings more, the first where both bring as much.
fn greater(best: Option<Detour>, other: Option<Detour>) -> Option<Detour> {
    match (best, other) {
        (Some(known), Some(new)) if new.gain > known.gain => other,
        (None, _) => other,
        _ => best,
    }
}
