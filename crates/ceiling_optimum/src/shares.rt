//! How often each way of a basis is taken.

use crate::basis::Member;
use crate::columns::Column;
use crate::exact::Solved;
use crate::net::{Net, Step};
use crate::simplex::Simplex;
use std::alloc::{AllocError, Global};

/// A way with how often it is taken.
#[derive(Drop)]
pub struct Share {
    pub steps: Vec<Step>,
    /// The whole number of times, rounded down.
    pub times: i128,
    /// Whether it is taken for a part of a time more.
    pub has_part: bool,
    /// Whether it leads from the start to an end; else it is a cycle.
    pub is_path: bool,
}

/// The same by the links of the net.
#[derive(Drop)]
pub struct Part {
    pub links: Vec<usize>,
    pub times: i128,
    pub has_part: bool,
    pub is_path: bool,
}

impl Simplex {
    /// How often the ways of the basis are taken. Of several paths the one that is taken most often
    /// is taken once.
    pub fn parts(&self, alloc: Global) -> Result<Vec<Part>, AllocError> {
        let solved = self.basis.shares(&self.columns)?;
        let path = self.main_path(&solved);
        let mut parts = Vec::new(alloc);
        for (member, taken) in self.basis.members.iter().zip(&solved.list) {
            let Member::Column(number) = *member else {
                continue;
            };
            if let Some(column) = self.columns.at(number)
                && *taken > 0
                && (!column.is_path || path == Some(number))
            {
                parts.push(column.taken(*taken, solved.unit)?)?;
            }
        }
        Ok(parts)
    }

    /// The path that is taken most often.
    fn main_path(&self, solved: &Solved) -> Option<usize> {
        let mut path = None;
        let mut most = 0;
        for (member, parts) in self.basis.members.iter().zip(&solved.list) {
            if let Member::Column(number) = *member
                && self.columns.at(number).is_some_and(|one| one.is_path)
                && *parts > most
            {
                most = *parts;
                path = Some(number);
            }
        }
        path
    }
}

impl Column {
    /// The column, taken so many parts of a unit.
    fn taken(&self, parts: i128, unit: i128) -> Result<Part, AllocError> {
        let parts = parts.max(0).unsigned_abs();
        let unit = unit.max(1).unsigned_abs().max(1);
        let times = if self.is_path { 1 } else { parts / unit };
        Ok(Part {
            links: self.links.clone()?,
            times: i128::try_from(times).unwrap_or(i128::MAX),
            has_part: !self.is_path && parts % unit != 0,
            is_path: self.is_path,
        })
    }
}

impl Part {
    /// Whether it is taken at all.
    pub fn is_taken(&self) -> bool {
        self.times > 0 || self.has_part
    }

    /// The share, by the steps that its links stand for.
    pub fn share(&self, alloc: Global, net: &Net) -> Result<Share, AllocError> {
        let mut steps = Vec::new(alloc);
        for number in &self.links {
            if let Some(link) = net.link(*number)
                && let Some(step) = link.step
            {
                steps.push(step)?;
            }
        }
        Ok(Share {
            steps,
            times: self.times,
            has_part: self.has_part,
            is_path: self.is_path,
        })
    }
}
