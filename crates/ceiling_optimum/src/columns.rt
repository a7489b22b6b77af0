//! The columns of the linear program: the ways that were found. Its first row says that there is
//! one path, and each other one that by a price no more is paid than is charged.

use crate::net::{Charge, Net};
use std::alloc::{AllocError, Global};

/// A way, with its entry in each row.
#[derive(Drop)]
pub struct Column {
    /// The word times that it takes.
    pub time: i128,
    pub entries: Vec<i128>,
    /// The links that it goes along.
    pub links: Vec<usize>,
    /// Whether it leads from the start to an end; else it is a cycle.
    pub is_path: bool,
}

/// The columns, by their numbers.
#[derive(Drop)]
pub struct Columns {
    alloc: Global,
    pub list: Vec<Column>,
}

impl Columns {
    /// How many there are at most; others are left out.
    const MOST: usize = 4_000;

    /// None yet.
    pub fn none(alloc: Global) -> Columns {
        Columns {
            alloc,
            list: Vec::new(alloc),
        }
    }

    /// The column with a number.
    pub fn at(&self, number: usize) -> Option<&Column> {
        self.list.get(number)
    }

    /// Adds a cycle. Whether there was none like it.
    pub fn add_cycle(&mut self, net: &Net, links: Vec<usize>) -> Result<bool, AllocError> {
        let column = Column::of(self.alloc, net, links, false)?;
        self.add(column)
    }

    /// Adds a path. Whether there was none like it.
    pub fn add_path(&mut self, net: &Net, links: Vec<usize>) -> Result<bool, AllocError> {
        let mut column = Column::of(self.alloc, net, links, true)?;
        column.charge_all(&net.begun);
        column.change(0, 1);
        self.add(column)
    }

    /// Adds a column, unless there is one like it, or no room.
    fn add(&mut self, column: Column) -> Result<bool, AllocError> {
        if self.list.len() >= Columns::MOST {
            return Ok(false);
        }
        for one in &self.list {
            if one.is_like(&column) {
                return Ok(false);
            }
        }
        self.list.push(column)?;
        Ok(true)
    }
}

impl Column {
    /// That of links.
    fn of(
        alloc: Global,
        net: &Net,
        links: Vec<usize>,
        is_path: bool,
    ) -> Result<Column, AllocError> {
        let mut column = Column {
            time: 0,
            entries: vec![in alloc; 0; net.ranks.len().saturating_add(1)]?,
            links: Vec::new(alloc),
            is_path,
        };
        for number in &links {
            if let Some(link) = net.link(*number) {
                column.time = column.time.saturating_add(link.time);
                column.charge_all(&link.charges);
            }
        }
        column.links = links;
        Ok(column)
    }

    /// Takes charges off.
    fn charge_all(&mut self, charges: &[Charge]) {
        for charge in charges {
            let row = charge.price.saturating_add(1);
            self.change(row, charge.times.saturating_neg());
        }
    }

    /// Adds to the entry of a row.
    fn change(&mut self, row: usize, by: i128) {
        if let Some(entry) = self.entries.get_mut(row) {
            *entry = entry.saturating_add(by);
        }
    }

    /// Whether another one has the same entries and time.
    fn is_like(&self, other: &Column) -> bool {
        if self.time != other.time {
            return false;
        }
        for (entry, beside) in self.entries.iter().zip(&other.entries) {
            if *entry != *beside {
                return false;
            }
        }
        true
    }
}
