//! The marks, and how they stand in one another.

use base_notes::Mark;
use std::alloc::{AllocError, Global};

/// A mark among others. Sets of marks are bits: bit j stands for the mark with index j.
#[derive(Clone, Copy)]
pub struct Standing {
    pub bit: u64,
    /// How often it is passed at most, since the last pass of one that it stands inside of.
    pub most: u32,
    /// The marks that it stands inside of.
    pub outer: u64,
    /// The marks that stand inside of it.
    pub inner: u64,
}

/// The bit of the mark with this index.
pub fn bit_of(mark: u8) -> u64 {
    let first: u64 = 1;
    first.wrapping_shl(u32::from(mark))
}

/// The marks, in their order.
#[derive(Drop)]
pub struct Marks {
    pub list: Vec<Standing>,
}

impl Marks {
    /// Those of notes.
    pub fn of(alloc: Global, marks: &[Mark]) -> Result<Marks, AllocError> {
        let list = Vec::new(alloc);
        let mut told = Marks { list };
        for (place, mark) in (0..u8::MAX).zip(marks) {
            let outer = match mark.inside {
                Some(around) => told.with_outer(around),
                None => 0,
            };
            let bit = bit_of(place);
            told.list.push(Standing {
                bit,
                most: u32::from(mark.most),
                outer,
                inner: 0,
            })?;
            told.add_inner(bit, outer);
        }
        Ok(told)
    }

    /// A mark, and those that it stands inside of.
    fn with_outer(&self, mark: usize) -> u64 {
        match self.list.get(mark) {
            Some(standing) => standing.bit | standing.outer,
            None => 0,
        }
    }

    /// Tells these marks that one stands inside of them.
    fn add_inner(&mut self, bit: u64, outer: u64) {
        for standing in self.list.iter_mut() {
            if standing.bit & outer != 0 {
                standing.inner |= bit;
            }
        }
    }

    /// The mark with this index.
    pub fn at(&self, mark: u8) -> Option<Standing> {
        self.list.get(usize::from(mark)).copied()
    }

    /// The marks that some stand inside of.
    pub fn outer_of(&self, some: u64) -> u64 {
        let mut outer = 0;
        for standing in &self.list {
            if standing.bit & some != 0 {
                outer |= standing.outer;
            }
        }
        outer
    }
}
