//! Tries of other orders of the marks, and of other prices: of marks whose regions share a site
//! each may pay for cycles through both.

use crate::graph::Graph;
use crate::levels::Levels;
use crate::marks::Standing;
use crate::order::{by_passes, with_first, with_last};
use crate::prices::Prices;
use crate::settling::Settling;
use ceiling_optimum::Optimum;
use std::alloc::{AllocError, Global};
use std::mem;

/// How many edges are looked at before the last try.
const LOOKS: u64 = 1 << 19;

/// How often the marks are gone through at most.
const TURNS: u8 = 8;

/// How many halves of a price are tried at most.
const HALVES: u8 = 127;

/// The best prices that were tried, and how they came about.
#[derive(Drop)]
struct Best {
    order: Vec<u8>,
    /// By mark, a price that its price isn't lower than.
    least: Vec<i128>,
    prices: Prices,
    /// What is owed in all.
    total: i128,
}

/// Tries, with the best of them.
#[derive(Drop)]
pub struct Tries<'a> {
    alloc: Global,
    graph: &'a Graph<'a>,
    settling: Settling,
    best: Best,
    levels: Levels,
    /// Those of the last try.
    tried: Levels,
}

impl<'a> Tries<'a> {
    /// The first: the marks pay that are passed the fewest times.
    pub fn new(alloc: Global, graph: &'a Graph<'a>) -> Result<Tries<'a>, AllocError> {
        let mut settling = Settling::new(alloc, graph)?;
        let mut levels = Levels::none(alloc, graph.reached.count())?;
        let tried = Levels::none(alloc, graph.reached.count())?;
        let order = by_passes(alloc, &graph.marks)?;
        let least = vec![in alloc; 0; graph.marks.list.len()]?;
        let prices = settling.settle(alloc, graph, &order, &least)?;
        let total = levels.total(graph, &prices).unwrap_or(i128::MAX);
        Ok(Tries {
            alloc,
            graph,
            settling,
            best: Best {
                order,
                least,
                prices,
                total,
            },
            levels,
            tried,
        })
    }

    /// Takes the least prices, where what is owed in all is less by them. Whether no others can
    /// come to less.
    pub fn takes(&mut self, optimum: &Option<Optimum>) -> Result<bool, AllocError> {
        let Some(optimum) = optimum else {
            return Ok(false);
        };
        let prices = self.prices_of(&optimum.prices)?;
        let total = self.tried.total(self.graph, &prices).unwrap_or(i128::MAX);
        if total < self.best.total {
            self.best.least = optimum.prices.clone()?;
            self.best.prices = prices;
            self.best.total = total;
            mem::swap(&mut self.levels, &mut self.tried);
        }
        Ok(optimum.is_least && total <= self.best.total)
    }

    /// These prices of the marks.
    fn prices_of(&self, list: &[i128]) -> Result<Prices, AllocError> {
        let mut prices = Prices::none(self.alloc, list.len())?;
        for (mark, (standing, price)) in (0..u8::MAX).zip(self.graph.marks.list.iter().zip(list)) {
            prices.set(mark, *price, standing.most);
        }
        Ok(prices)
    }

    /// How many edges were looked at.
    fn looks(&self) -> u64 {
        let levels = self.levels.looks.saturating_add(self.tried.looks);
        levels.saturating_add(self.settling.rounds.ways.looks)
    }

    /// Tries an order with least prices, and keeps them if what is owed in all is less. Whether it
    /// is.
    fn take(&mut self, order: Vec<u8>, least: Vec<i128>) -> Result<bool, AllocError> {
        if self.looks() > LOOKS {
            return Ok(false);
        }
        let prices = self
            .settling
            .settle(self.alloc, self.graph, &order, &least)?;
        let total = self.tried.total(self.graph, &prices).unwrap_or(i128::MAX);
        if total >= self.best.total {
            return Ok(false);
        }
        self.best = Best {
            order,
            least,
            prices,
            total,
        };
        mem::swap(&mut self.levels, &mut self.tried);
        Ok(true)
    }

    /// Tries a mark as the first of all but those inside of it, which pays least, and as the last
    /// of all but those around it.
    fn move_mark(&mut self, mark: Standing) -> Result<bool, AllocError> {
        let first = with_first(self.alloc, &self.best.order, mark.bit | mark.inner)?;
        let least = self.best.least.clone()?;
        if self.take(first, least)? {
            return Ok(true);
        }
        let last = with_last(self.alloc, &self.best.order, mark.bit | mark.outer)?;
        let least = self.best.least.clone()?;
        self.take(last, least)
    }

    /// Tries a price of a mark, in the order that there is and with the mark as the first.
    fn price_mark(
        &mut self,
        mark: Standing,
        place: usize,
        price: i128,
    ) -> Result<bool, AllocError> {
        let order = self.best.order.clone()?;
        let least = self.with_least(place, price)?;
        if self.take(order, least)? {
            return Ok(true);
        }
        let first = with_first(self.alloc, &self.best.order, mark.bit | mark.inner)?;
        let least = self.with_least(place, price)?;
        self.take(first, least)
    }

    /// The least prices, but another one of a mark.
    fn with_least(&self, place: usize, price: i128) -> Result<Vec<i128>, AllocError> {
        let mut least = self.best.least.clone()?;
        if let Some(before) = least.get_mut(place) {
            *before = price.max(0);
        }
        Ok(least)
    }

    /// Tries higher and lower prices of a mark, in halves.
    fn change_price(&mut self, mark: Standing, place: usize) -> Result<bool, AllocError> {
        let price = self.best.prices.list.get(place).copied().unwrap_or(0);
        let mut step = price.max(self.best.total / mark.most.max(1));
        let mut is_better = false;
        for _ in 0..HALVES {
            if step == 0 || self.looks() > LOOKS {
                break;
            }
            let price = self.best.prices.list.get(place).copied().unwrap_or(0);
            let higher = price.saturating_add(step);
            if self.price_mark(mark, place, higher)?
                || price > 0 && self.price_mark(mark, place, price.saturating_sub(step))?
            {
                is_better = true;
            }
            step /= 2;
        }
        Ok(is_better)
    }

    /// Tries each mark that shares sites with one beside.
    fn move_all(&mut self) -> Result<bool, AllocError> {
        let mut is_better = false;
        for mark in &self.graph.marks.list {
            if mark.most > 0 && self.graph.sharing(*mark) != 0 && self.move_mark(*mark)? {
                is_better = true;
            }
        }
        Ok(is_better)
    }

    /// Tries other prices of each mark that shares sites with one beside, or has several edges.
    fn change_all(&mut self) -> Result<bool, AllocError> {
        let mut is_better = false;
        for (place, mark) in self.graph.marks.list.iter().enumerate() {
            let is_open = self.graph.sharing(*mark) != 0 || self.graph.edges_of(mark.bit) > 1;
            if mark.most > 0 && is_open && self.change_price(*mark, place)? {
                is_better = true;
            }
        }
        Ok(is_better)
    }

    /// Tries until nothing gets better.
    pub fn improve(&mut self) -> Result<(), AllocError> {
        for _ in 0..TURNS {
            let is_moved = self.move_all()?;
            if !self.change_all()? && !is_moved {
                break;
            }
        }
        Ok(())
    }

    /// The best prices, with the levels that go with them.
    pub fn finish(self) -> (Vec<i128>, Levels) {
        let Tries { best, levels, .. } = self;
        let Best { prices, .. } = best;
        let Prices { list, .. } = prices;
        (list, levels)
    }
}
