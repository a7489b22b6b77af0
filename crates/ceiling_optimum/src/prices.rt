//! Prices, and what is charged by them.

use crate::net::{Charge, Net};

/// Prices in parts of a unit.
#[derive(Drop)]
pub struct Prices {
    /// How many parts come to one word time.
    pub unit: i128,
    pub list: Vec<i128>,
}

impl Prices {
    /// What charges come to, with a time, in parts of the unit.
    pub fn cost(&self, time: i128, charges: &[Charge]) -> i128 {
        let mut cost = time.saturating_mul(self.unit);
        for charge in charges {
            let price = self.list.get(charge.price).copied().unwrap_or(0);
            cost = cost.saturating_add(price.saturating_mul(charge.times));
        }
        cost
    }

    /// What the links of a way come to.
    pub fn cost_of_way(&self, net: &Net, links: &[usize]) -> i128 {
        let mut cost: i128 = 0;
        for number in links {
            if let Some(link) = net.link(*number) {
                cost = cost.saturating_add(self.cost(link.time, &link.charges));
            }
        }
        cost
    }

    /// Raises a price.
    pub fn raise(&mut self, index: usize, by: i128) {
        if let Some(price) = self.list.get_mut(index) {
            *price = price.saturating_add(by);
        }
    }
}
