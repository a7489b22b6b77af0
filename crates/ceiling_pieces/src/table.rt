//! The longest walks from each source to each.

use crate::walks::Walks;
use std::alloc::{AllocError, Global};

/// A walk, with where it leads and the word times that it takes.
#[derive(Clone, Copy)]
pub struct Cell {
    /// The source that it leads to, or the column of the end.
    pub onto: usize,
    pub time: u128,
    /// Its number.
    pub walk: usize,
}

/// Two walks, one after the other, with the word times that they take.
#[derive(Clone, Copy)]
struct Joint {
    time: u128,
    first: usize,
    second: usize,
}

/// The longest walks that were found from each source to each, and to an end of the whole, which is
/// the last column. Rows hold what was found alone, since most have little.
#[derive(Drop)]
pub struct Table {
    rows: Vec<Vec<Cell>>,
}

/// The longer of two, the first where they are as long.
pub fn longer(first: Option<Cell>, second: Option<Cell>) -> Option<Cell> {
    match (first, second) {
        (Some(one), Some(other)) if one.time < other.time => second,
        (None, _) => second,
        _ => first,
    }
}

/// The walk of a row that leads there.
fn cell_of(row: &[Cell], onto: usize) -> Option<Cell> {
    for cell in row {
        if cell.onto == onto {
            return Some(*cell);
        }
    }
    None
}

/// Takes a walk into a row, if it is longer than the one that leads there.
fn raise_row(row: &mut Vec<Cell>, cell: Cell) -> Result<(), AllocError> {
    let Some(place) = row.iter().position(|one| one.onto == cell.onto) else {
        return Ok(row.push(cell)?);
    };
    if let Some(known) = row.get_mut(place)
        && known.time < cell.time
    {
        *known = cell;
    }
    Ok(())
}

impl Table {
    /// Without walks.
    pub fn none(alloc: Global, size: usize) -> Result<Table, AllocError> {
        let mut rows = Vec::new(alloc);
        for _ in 0..size {
            rows.push(Vec::new(alloc))?;
        }
        Ok(Table { rows })
    }

    /// The walks without hops, from each source to itself.
    pub fn one(alloc: Global, size: usize) -> Result<Table, AllocError> {
        let mut table = Table::none(alloc, size)?;
        for index in 0..size {
            let cell = Cell {
                onto: index,
                time: 0,
                walk: Walks::NONE,
            };
            table.raise_at(index, cell)?;
        }
        Ok(table)
    }

    /// The walk from one to another.
    pub fn at(&self, from: usize, onto: usize) -> Option<Cell> {
        cell_of(self.rows.get(from)?, onto)
    }

    /// Takes a walk from one, if it is longer than the one that is known.
    pub fn raise_at(&mut self, from: usize, cell: Cell) -> Result<(), AllocError> {
        if let Some(row) = self.rows.get_mut(from) {
            raise_row(row, cell)?;
        }
        Ok(())
    }

    /// Whether a walk leads from a source back to it.
    pub fn leads_back(&self) -> bool {
        for index in 0..self.rows.len() {
            if self.at(index, index).is_some() {
                return true;
            }
        }
        false
    }

    /// Those of another table where they are longer.
    pub fn raise(&mut self, other: &Table) -> Result<(), AllocError> {
        for (from, row) in other.rows.iter().enumerate() {
            self.raise_from(from, row)?;
        }
        Ok(())
    }

    /// Those of a row where they are longer.
    fn raise_from(&mut self, from: usize, row: &[Cell]) -> Result<(), AllocError> {
        for cell in row {
            self.raise_at(from, *cell)?;
        }
        Ok(())
    }

    /// The longest of these walks with one of another table behind it.
    pub fn join(
        &self,
        alloc: Global,
        next: &Table,
        walks: &mut Walks,
    ) -> Result<Table, AllocError> {
        let mut rows = Vec::new(alloc);
        for row in &self.rows {
            let joints = next.behind(alloc, row)?;
            rows.push(joined(alloc, &joints, walks)?)?;
        }
        Ok(Table { rows })
    }

    /// The longest of the walks of a row with one of this table behind it.
    fn behind(&self, alloc: Global, row: &[Cell]) -> Result<Vec<Option<Joint>>, AllocError> {
        let mut joints: Vec<Option<Joint>> = vec![in alloc; None; self.rows.len()]?;
        for first in row {
            if let Some(next) = self.rows.get(first.onto) {
                raise_joints(&mut joints, *first, next);
            }
        }
        Ok(joints)
    }
}

/// The longer of a walk that is known and one that is put together.
fn longer_joint(known: Option<Joint>, joint: Joint) -> Joint {
    match known {
        Some(known) if known.time >= joint.time => known,
        _ => joint,
    }
}

/// Takes a walk with one of a row behind it, where that is longer.
fn raise_joints(joints: &mut [Option<Joint>], first: Cell, next: &[Cell]) {
    for second in next {
        let joint = Joint {
            time: first.time.saturating_add(second.time),
            first: first.walk,
            second: second.walk,
        };
        if let Some(known) = joints.get_mut(second.onto) {
            *known = Some(longer_joint(*known, joint));
        }
    }
}

/// The walks that are put together, as far as there is room.
fn joined(
    alloc: Global,
    joints: &[Option<Joint>],
    walks: &mut Walks,
) -> Result<Vec<Cell>, AllocError> {
    let mut row = Vec::new(alloc);
    for (onto, joint) in joints.iter().enumerate() {
        if let Some(joint) = joint
            && let Some(walk) = walks.then(joint.first, joint.second)?
        {
            let time = joint.time;
            row.push(Cell { onto, time, walk })?;
        }
    }
    Ok(row)
}
