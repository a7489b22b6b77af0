//! What is owed by the prices of a ceiling.

use crate::marks::Marks;

/// Prices with what they stand for: what is owed at a site is its level, and of each mark in whose
/// region it is the price for each pass that is left.
#[derive(Clone, Copy)]
pub struct Owed<'a> {
    /// The price of a pass of each mark.
    pub prices: &'a [u128],
    /// By site, the marks in whose regions it is, a bit of each.
    pub regions: &'a [u64],
    /// By site, its level.
    pub levels: &'a [Option<u128>],
}

impl Owed<'_> {
    /// What is owed at a site with these counts.
    pub fn at(self, marks: &Marks, site: usize, counts: &[u32]) -> u128 {
        let regions = self.regions.get(site).copied().unwrap_or(0);
        let mut owed = match self.levels.get(site) {
            Some(Some(level)) => *level,
            _ => 0,
        };
        for ((standing, price), count) in marks.list.iter().zip(self.prices).zip(counts) {
            if standing.bit & regions != 0 {
                let left = u128::from(standing.most.saturating_sub(*count));
                owed = owed.saturating_add(price.saturating_mul(left));
            }
        }
        owed
    }
}
