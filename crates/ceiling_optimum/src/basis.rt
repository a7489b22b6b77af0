//! A basis of the linear program: as many columns as there are rows, with the inverse of what they
//! make together.

use crate::columns::Columns;
use crate::floats::{cleaned, float_of, product_of};
use std::alloc::{AllocError, Global};

/// What stands in a place of the basis.
#[derive(Clone, Copy, PartialEq, Eq)]
pub enum Member {
    /// What a row leaves open: its own column is 1 there, and else 0.
    Slack(usize),
    /// The column with this number.
    Column(usize),
}

impl Member {
    /// Its entry in a row.
    pub fn entry(self, columns: &Columns, row: usize) -> i128 {
        match self {
            Member::Slack(own) => i128::from(own == row),
            Member::Column(number) => match columns.at(number) {
                Some(column) => column.entries.get(row).copied().unwrap_or(0),
                None => 0,
            },
        }
    }

    /// The word times that it takes.
    pub fn time(self, columns: &Columns) -> i128 {
        match self {
            Member::Slack(_) => 0,
            Member::Column(number) => columns.at(number).map_or(0, |column| column.time),
        }
    }
}

/// The members by their places, and the rows of the inverse.
#[derive(Drop)]
pub struct Basis {
    pub alloc: Global,
    pub members: Vec<Member>,
    pub inverse: Vec<Vec<f64>>,
    /// The determinant of the members' columns.
    pub determinant: f64,
}

impl Basis {
    /// What each row leaves open.
    pub fn of_slacks(alloc: Global, rows: usize) -> Result<Basis, AllocError> {
        let mut members = Vec::new(alloc);
        let mut inverse = Vec::new(alloc);
        for row in 0..rows {
            members.push(Member::Slack(row))?;
            let mut entries = vec![in alloc; 0.0; rows]?;
            if let Some(entry) = entries.get_mut(row) {
                *entry = 1.0;
            }
            inverse.push(entries)?;
        }
        Ok(Basis {
            alloc,
            members,
            inverse,
            determinant: 1.0,
        })
    }

    /// How a member's column is made of those of the basis.
    fn parts_of(&self, columns: &Columns, member: Member) -> Result<Vec<f64>, AllocError> {
        let mut entries = Vec::new(self.alloc);
        for row in 0..self.members.len() {
            entries.push(float_of(member.entry(columns, row)))?;
        }
        let mut parts = Vec::new(self.alloc);
        for row in &self.inverse {
            parts.push(product_of(row, &entries))?;
        }
        Ok(parts)
    }

    /// Takes a member in, and lets another one go. `false` where none has to go, so that there is
    /// no end to what it brings.
    pub fn enter(&mut self, columns: &Columns, member: Member) -> Result<bool, AllocError> {
        let parts = self.parts_of(columns, member)?;
        let Some(place) = self.leaving(&parts) else {
            return Ok(false);
        };
        let part = parts.get(place).copied().unwrap_or(1.0);
        self.determinant *= part;
        let mut row = Vec::new(self.alloc);
        if let Some(old) = self.inverse.get(place) {
            for entry in old {
                row.push(*entry / part)?;
            }
        }
        self.take_off(place, &parts, &row);
        if let Some(entry) = self.inverse.get_mut(place) {
            *entry = row;
        }
        if let Some(entry) = self.members.get_mut(place) {
            *entry = member;
        }
        Ok(true)
    }

    /// Takes the new row of a place off the others, as often as the parts say.
    fn take_off(&mut self, place: usize, parts: &[f64], row: &[f64]) {
        for (index, other) in self.inverse.iter_mut().enumerate() {
            let part = parts.get(index).copied().unwrap_or(0.0);
            if index != place && part != 0.0 {
                subtract(other, row, part);
            }
        }
    }

    /// The place whose member goes: that which is used up first. Ties are told by all entries of
    /// the inverse's row, so that no basis comes again.
    fn leaving(&self, parts: &[f64]) -> Option<usize> {
        let mut leaving: Option<usize> = None;
        for (place, part) in parts.iter().enumerate() {
            if *part > 0.0 {
                let is_sooner = match leaving {
                    Some(other) => self.is_sooner(parts, place, other),
                    None => true,
                };
                if is_sooner {
                    leaving = Some(place);
                }
            }
        }
        leaving
    }

    /// Whether the member of one place is used up before that of another.
    fn is_sooner(&self, parts: &[f64], place: usize, other: usize) -> bool {
        let (Some(row), Some(beside)) = (self.inverse.get(place), self.inverse.get(other)) else {
            return false;
        };
        let by = parts.get(place).copied().unwrap_or(1.0);
        let beside_by = parts.get(other).copied().unwrap_or(1.0);
        for (entry, one) in row.iter().zip(beside) {
            let (first, second) = (*entry * beside_by, *one * by);
            let apart = cleaned(first - second, 1000.0 * (first.abs() + second.abs()));
            if apart != 0.0 {
                return apart < 0.0;
            }
        }
        false
    }
}

/// Takes a row off another so many times.
fn subtract(row: &mut [f64], other: &[f64], times: f64) {
    for (entry, beside) in row.iter_mut().zip(other) {
        let part = times * *beside;
        let size = entry.abs() + part.abs();
        *entry = cleaned(*entry - part, size);
    }
}
