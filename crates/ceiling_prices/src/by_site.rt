//! Tables with an entry for each site, by its number.

use std::alloc::{AllocError, Global};

/// A number for each site; none, where nothing is known.
#[derive(Drop)]
pub struct BySite {
    pub entries: Vec<Option<i128>>,
}

impl BySite {
    /// Of which none of so many sites has a number.
    pub fn none(alloc: Global, count: usize) -> Result<BySite, AllocError> {
        Ok(BySite {
            entries: vec![in alloc; None; count]?,
        })
    }

    /// The number of a site.
    pub fn at(&self, site: usize) -> Option<i128> {
        match self.entries.get(site) {
            Some(entry) => *entry,
            None => None,
        }
    }

    /// Gives a site a number, or takes it away.
    pub fn set(&mut self, site: usize, entry: Option<i128>) {
        if let Some(own) = self.entries.get_mut(site) {
            *own = entry;
        }
    }
}

/// Some of the marks for each site: bit j stands for the mark with index j.
#[derive(Drop)]
pub struct Bits {
    pub entries: Vec<u64>,
}

impl Bits {
    /// None of them for each of so many sites.
    pub fn none(alloc: Global, count: usize) -> Result<Bits, AllocError> {
        Ok(Bits {
            entries: vec![in alloc; 0; count]?,
        })
    }

    /// Those of a site.
    pub fn at(&self, site: usize) -> u64 {
        match self.entries.get(site) {
            Some(some) => *some,
            None => 0,
        }
    }

    /// Adds some to those of a site. Whether one of them is new.
    pub fn add(&mut self, site: usize, some: u64) -> bool {
        let Some(own) = self.entries.get_mut(site) else {
            return false;
        };
        let before = *own;
        *own = before | some;
        before | some != before
    }

    /// Of those of a site stay only some.
    pub fn keep(&mut self, site: usize, some: u64) {
        if let Some(own) = self.entries.get_mut(site) {
            *own &= some;
        }
    }
}
