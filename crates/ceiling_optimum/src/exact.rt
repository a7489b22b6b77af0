//! What a basis comes to in whole numbers: by the inverse, which is of floats, and then by what is
//! still lacking, until nothing is.

use crate::basis::Basis;
use crate::columns::Columns;
use crate::floats::{float_of, whole_of};
use std::alloc::AllocError;

/// How often what is lacking is made good at most.
const ROUNDS: u8 = 8;

/// The largest unit that is tried.
const LARGEST: f64 = 1e12;

/// Numbers in parts of a unit.
#[derive(Drop)]
pub struct Solved {
    /// How many parts come to 1.
    pub unit: i128,
    pub list: Vec<i128>,
}

impl Basis {
    /// The unit in which all that the basis comes to is whole; `None` where it is too large.
    fn unit(&self) -> Option<i128> {
        let size = self.determinant.abs().round();
        if size <= LARGEST {
            Some(whole_of(size).max(1))
        } else {
            None
        }
    }

    /// What a unit of each row is worth, so that no member of the basis brings more than it takes.
    /// `None` where no unit was found for that.
    pub fn worths(&self, columns: &Columns) -> Result<Option<Solved>, AllocError> {
        if let Some(solved) = self.worths_by(columns, 1)? {
            return Ok(Some(solved));
        }
        match self.unit() {
            Some(unit) if unit > 1 => self.worths_by(columns, unit),
            _ => Ok(None),
        }
    }

    /// The same in parts of a unit.
    fn worths_by(&self, columns: &Columns, unit: i128) -> Result<Option<Solved>, AllocError> {
        let mut list: Vec<i128> = vec![in self.alloc; 0; self.members.len()]?;
        for _ in 0..ROUNDS {
            let Some(lacking) = self.lacking_worths(columns, unit, &list)? else {
                return Ok(None);
            };
            if is_none(&lacking) {
                return Ok(Some(Solved { unit, list }));
            }
            self.add_worths(&mut list, &lacking);
        }
        Ok(None)
    }

    /// By place, what the worths of the rows lack of what its member takes. `None` where there is
    /// no room for that.
    fn lacking_worths(
        &self,
        columns: &Columns,
        unit: i128,
        list: &[i128],
    ) -> Result<Option<Vec<i128>>, AllocError> {
        let mut lacking = Vec::new(self.alloc);
        for member in &self.members {
            let mut left = member.time(columns).checked_mul(unit);
            for (row, worth) in list.iter().enumerate() {
                let entry = member.entry(columns, row);
                left = less(left, entry, *worth);
            }
            let Some(left) = left else {
                return Ok(None);
            };
            lacking.push(left)?;
        }
        Ok(Some(lacking))
    }

    /// Adds what is lacking to the worths.
    fn add_worths(&self, list: &mut [i128], lacking: &[i128]) {
        for (row, worth) in list.iter_mut().enumerate() {
            let mut more = 0.0;
            for (inverse, left) in self.inverse.iter().zip(lacking) {
                let entry = inverse.get(row).copied().unwrap_or(0.0);
                if *left != 0 && entry != 0.0 {
                    more += float_of(*left) * entry;
                }
            }
            *worth = worth.saturating_add(whole_of(more));
        }
    }

    /// How often the member of each place is taken. Where no unit was found for that, near numbers
    /// in parts of one.
    pub fn shares(&self, columns: &Columns) -> Result<Solved, AllocError> {
        if let Some(solved) = self.shares_by(columns, 1)? {
            return Ok(solved);
        }
        if let Some(unit) = self.unit()
            && unit > 1
            && let Some(solved) = self.shares_by(columns, unit)?
        {
            return Ok(solved);
        }
        self.near_shares()
    }

    /// By the inverse alone.
    fn near_shares(&self) -> Result<Solved, AllocError> {
        let mut list = Vec::new(self.alloc);
        for row in &self.inverse {
            let share = row.first().copied().unwrap_or(0.0);
            list.push(whole_of(share * 1e6))?;
        }
        Ok(Solved {
            unit: 1_000_000,
            list,
        })
    }

    /// How often each is taken, in parts of a unit.
    fn shares_by(&self, columns: &Columns, unit: i128) -> Result<Option<Solved>, AllocError> {
        let mut list: Vec<i128> = vec![in self.alloc; 0; self.members.len()]?;
        for _ in 0..ROUNDS {
            let Some(lacking) = self.lacking_shares(columns, unit, &list)? else {
                return Ok(None);
            };
            if is_none(&lacking) {
                return Ok(Some(Solved { unit, list }));
            }
            self.add_shares(&mut list, &lacking);
        }
        Ok(None)
    }

    /// By row, what the shares lack of what it allows: one path, and of all else none. `None` where
    /// there is no room for that.
    fn lacking_shares(
        &self,
        columns: &Columns,
        unit: i128,
        list: &[i128],
    ) -> Result<Option<Vec<i128>>, AllocError> {
        let mut lacking = Vec::new(self.alloc);
        for row in 0..self.members.len() {
            let mut left = Some(if row == 0 { unit } else { 0 });
            for (member, share) in self.members.iter().zip(list) {
                let entry = member.entry(columns, row);
                left = less(left, entry, *share);
            }
            let Some(left) = left else {
                return Ok(None);
            };
            lacking.push(left)?;
        }
        Ok(Some(lacking))
    }

    /// Adds what is lacking to the shares.
    fn add_shares(&self, list: &mut [i128], lacking: &[i128]) {
        for (share, inverse) in list.iter_mut().zip(&self.inverse) {
            let mut more = 0.0;
            for (entry, left) in inverse.iter().zip(lacking) {
                if *left != 0 {
                    more += *entry * float_of(*left);
                }
            }
            *share = share.saturating_add(whole_of(more));
        }
    }
}

/// A number less the product of two; `None` where there is no room for that.
fn less(number: Option<i128>, one: i128, other: i128) -> Option<i128> {
    number?.checked_sub(one.checked_mul(other)?)
}

/// Whether all are 0.
fn is_none(numbers: &[i128]) -> bool {
    for number in numbers {
        if *number != 0 {
            return false;
        }
    }
    true
}
