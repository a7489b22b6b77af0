//! What walks are put together from.

use crate::free::Step;
use std::alloc::{AllocError, Global};

/// A walk, or a part of one. Others are named by their numbers, which are lower.
#[derive(Clone, Copy)]
pub enum Walk {
    /// No hop.
    None,
    /// The longest way free of marks from a source, and then a step.
    Way(usize, Step),
    /// One after the other.
    Then(usize, usize),
    /// So many rounds of one.
    Rounds(u16, usize),
}

/// Walks by their numbers. The first has no hop.
#[derive(Drop)]
pub struct Walks {
    list: Vec<Walk>,
}

impl Walks {
    /// How many there are at most.
    const MOST: usize = 1_000_000;

    /// The number of the walk that has no hop.
    pub const NONE: usize = 0;

    /// The one that has no hop.
    pub fn new(alloc: Global) -> Result<Walks, AllocError> {
        let mut list = Vec::new(alloc);
        list.push(Walk::None)?;
        Ok(Walks { list })
    }

    /// Whether there is no room for more.
    pub fn is_full(&self) -> bool {
        self.list.len() >= Walks::MOST
    }

    /// The walk with a number.
    pub fn at(&self, number: usize) -> Option<Walk> {
        self.list.get(number).copied()
    }

    /// Adds a walk. Its number; `None` where there is no room for it.
    pub fn add(&mut self, walk: Walk) -> Result<Option<usize>, AllocError> {
        let number = self.list.len();
        if number >= Walks::MOST {
            return Ok(None);
        }
        self.list.push(walk)?;
        Ok(Some(number))
    }

    /// One walk and then another; `None` where there is no room for that.
    pub fn then(&mut self, first: usize, second: usize) -> Result<Option<usize>, AllocError> {
        if first == Walks::NONE {
            return Ok(Some(second));
        }
        if second == Walks::NONE {
            return Ok(Some(first));
        }
        self.add(Walk::Then(first, second))
    }

    /// So many rounds of a walk, one at least; `None` where there is no room for them.
    pub fn rounds(&mut self, times: u16, walk: usize) -> Result<Option<usize>, AllocError> {
        if times <= 1 || walk == Walks::NONE {
            return Ok(Some(walk));
        }
        self.add(Walk::Rounds(times, walk))
    }
}
