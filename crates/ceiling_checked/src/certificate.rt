//! Prices of marks, their regions and levels of where instructions are found, and whether they are
//! a certificate.

ghost use Rattle.std.specs.Prelude.{◌≡◌, ℕ, ◌%◌, ◌+◌, ◌-◌, ◌^◌, ◌<◌, ◌≤◌, ◌⊎◌, List, Some, None};
ghost use Rattle.std.specs.Prelude.{IsTrue};
ghost use Rattle.std.specs.Prelude.{length, vec_len, IfSome};
ghost use Rattle.base_graphs.specs.Graph.{AreDifferent};
ghost use Rattle.flow_graph.specs.Walk.{IsProper, Setting};
ghost use Rattle.flow_graph.specs.Hops.{first_node, Node};
ghost use Rattle.ceiling_rows.specs.declared.sites.Site.{Site};
ghost use Rattle.ceiling_rows.specs.SiteRows.{AreSiteRows};
ghost use Rattle.ceiling_rows.specs.Sites.{AreSites, IsSite};
ghost use Rattle.ceiling_checked.specs.Charge.{charge_from, paid_by};
ghost use Rattle.ceiling_checked.specs.Paying.{pay_for, regions_in};
ghost use Rattle.ceiling_checked.specs.Paying.{IsEdgePaid, IsPaid, IsShut, IsSitePaid};
ghost use Rattle.ceiling_checked.specs.Right.{ArePrices};
ghost use Rattle.ceiling_checked.specs.AtSite.{at_number, is_in, regions_at};

use crate::prices::Prices;
use crate::region::is_in;
use crate::step::Step;
use base_notes::Mark;
use ceiling_prices::Found;
use ceiling_rows::{SiteEdge, SiteRow};
use flow_acceptance::counts::LARGEST;

/// Prices of the marks with what they stand for: what is owed where an instruction is found is the
/// level there, and of each mark in whose region that is its price for each pass that is left; less
/// the debt, but never below 0.
#[derive(Drop)]
pub struct Certificate {
    /// The price of a pass of each mark.
    pub prices: Vec<u128>,
    /// By the numbers of sites, the marks in whose regions they lie: a bit of each, by its index.
    pub regions: Vec<u64>,
    /// By the numbers of sites, their levels; `None` where no walk comes.
    pub levels: Vec<Option<u128>>,
    pub debt: u128,
}

impl From<Found> for Certificate {
    fn from(found: Found) -> Certificate {
        Certificate {
            prices: found.prices,
            regions: found.regions,
            levels: found.levels,
            debt: found.debt,
        }
    }
}

/// Whether the mark of the edge may never be passed.
fn is_shut(marks: &[Mark], edge: &SiteEdge) -> bool
    ensures { IsTrue result → IsShut marks.now edge.now }
{
    let Some(index) = edge.mark else {
        return false;
    };
    match marks.get(usize::from(index)) {
        Some(mark) => mark.most == 0,
        None => false,
    }
}

impl Certificate {
    /// The level of a site.
    fn level(&self, number: usize) -> Option<u128>
        ensures { result ≡ at_number self.now.levels.items number }
    {
        match self.levels.get(number) {
            Some(level) => *level,
            None => None,
        }
    }

    /// The regions in which a site lies.
    fn regions(&self, number: usize) -> u64
        ensures { result ≡ regions_at self.now.regions.items number }
    {
        match self.regions.get(number) {
            Some(regions) => *regions,
            None => 0,
        }
    }

    /// What the mark of an edge pays: its price, where its region has the site.
    fn paid_by(&self, number: usize, mark: Option<u8>) -> u128
        requires { vec_len self.now.prices ≤ 64 }
        ensures { result
            ≡ paid_by (regions_in self.now number) self.now.prices.items mark }
    {
        let Some(index) = mark else {
            return 0;
        };
        let index = usize::from(index);
        match self.prices.get(index) {
            Some(price) if is_in(self.regions(number), index) => *price,
            _ => 0,
        }
    }

    /// What there must be for an edge from a site: for its end, and for its time, the level where
    /// it leads, and what the marks charge. `None` where no walk comes there, or there is no room
    /// for so much.
    fn needed(&self, marks: &[Mark], number: usize, edge: &SiteEdge) -> Option<u128>
        requires few { length marks.now ≤ 64 }
        requires priced { vec_len self.now.prices ≡ length marks.now }
        ensures { IfSome result (λ needed. (level : ℕ) → needed
            ≤ pay_for self.now number level edge.now
            → IsEdgePaid marks.now self.now number level edge.now) }
    {
        let step = Step {
            marks,
            here: self.regions(number),
            there: self.regions(edge.onto),
            passed: edge.mark,
        };
        let later = self
            .level(edge.onto)?
            .checked_add(step.charge(&self.prices)?)?;
        let onward = later.checked_add(u128::from(edge.time))?;
        let end = self.debt.checked_add(u128::from(edge.stop))?;
        Some(onward.max(end))
    }

    /// Whether a level of a site pays for an edge.
    fn pays_edge(&self, marks: &[Mark], number: usize, level: u128, edge: &SiteEdge) -> bool
        requires few { length marks.now ≤ 64 }
        requires priced { vec_len self.now.prices ≡ length marks.now }
        ensures { IsTrue result → IsShut marks.now edge.now
            ⊎ IsEdgePaid marks.now self.now number level edge.now }
    {
        if is_shut(marks, edge) {
            return true;
        }
        let Some(pay) = level.checked_add(self.paid_by(number, edge.mark)) else {
            return false;
        };
        match self.needed(marks, number, edge) {
            Some(needed) => needed <= pay,
            None => false,
        }
    }

    /// Whether a level of a site pays for all hops of its row.
    fn pays(&self, marks: &[Mark], number: usize, level: u128, row: &SiteRow) -> bool
        requires few { length marks.now ≤ 64 }
        requires priced { vec_len self.now.prices ≡ length marks.now }
        ensures { IsTrue result → IsPaid marks.now self.now number level row.now }
    {
        for edge in &row.edges {
            if !self.pays_edge(marks, number, level, edge) {
                return false;
            }
        }
        u128::from(row.stop) <= level.saturating_sub(self.debt)
    }

    /// Whether the level at a number, if there is one, pays for all hops of the row there.
    fn pays_at(&self, marks: &[Mark], number: usize, row: &SiteRow) -> bool
        requires few { length marks.now ≤ 64 }
        requires priced { vec_len self.now.prices ≡ length marks.now }
        ensures { IsTrue result → (level : ℕ) → at_number self.now.levels.items number ≡ Some level
            → IsPaid marks.now self.now number level row.now }
    {
        match self.level(number) {
            Some(level) => self.pays(marks, number, level, row),
            None => true,
        }
    }

    /// Whether each level pays for all hops of its row.
    fn pays_all(&self, marks: &[Mark], rows: &[SiteRow]) -> bool
        requires few { length marks.now ≤ 64 }
        requires priced { vec_len self.now.prices ≡ length marks.now }
        ensures { IsTrue result
            → (number : ℕ) → IsSitePaid marks.now self.now rows.now number }
    {
        for (number, row) in rows.iter().enumerate() {
            if !self.pays_at(marks, number, row) {
                return false;
            }
        }
        true
    }

    /// What is owed at the start, before any mark is passed; `None` where no walk begins there, or
    /// from 2^127 on.
    fn total(&self, marks: &[Mark], start: usize) -> Option<u128>
        requires few { length marks.now ≤ 64 }
        requires priced { vec_len self.now.prices ≡ length marks.now }
        ensures { IfSome result (λ total. (total < 2 ^ 127) × ((level : ℕ)
            × (at_number self.now.levels.items start ≡ Some level)
            × (total ≡ level + charge_from marks.now (is_in 0) (regions_in self.now start)
            None 0 marks.now self.now.prices.items - self.now.debt))) }
    {
        let step = Step {
            marks,
            here: 0,
            there: self.regions(start),
            passed: None,
        };
        let whole = self.level(start)?.checked_add(step.charge(&self.prices)?)?;
        let total = whole.saturating_sub(self.debt);
        if total < LARGEST { Some(total) } else { None }
    }

    /// Its prices with the total, where it is a certificate: each mark has a price, and each level
    /// pays for all hops from its site, that of the start among them.
    pub fn checked(self, marks: &[Mark], rows: &[SiteRow], start: usize) -> Option<Prices>
        requires few { length marks.now ≤ 64 }
        ensures { IfSome result (λ found. (g : Setting) (nodes : List Node) (sites : List Site)
            → IsProper g → g.notes.marks ≡ marks.now → AreDifferent nodes → AreSites nodes sites
            → AreSiteRows g nodes sites rows.now
            → IsSite nodes sites start (first_node g.notes g.start) (g.start % 50)
            → ArePrices g found.prices.items found.total) }
    {
        if self.prices.len() != marks.len() {
            return None;
        }
        let total = self.total(marks, start)?;
        if !self.pays_all(marks, rows) {
            return None;
        }
        Some(Prices {
            prices: self.prices,
            total,
        })
    }
}
