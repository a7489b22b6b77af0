//! What no ceiling is above: neither its total nor a price.

ghost use Rattle.std.specs.Prelude.{◌≡◌, ◌≤◌, ◌↔◌, length, All, IfOk, IsTrue};
ghost use Rattle.flow_graph.specs.Flow.{nodes_of, notes_of};
ghost use Rattle.ceiling_checked.specs.Sized.{IsSizeBy};

use crate::in_rounds::{passes_in_all, rounds_of, sum};
use flow_acceptance::counts::product;
use flow_graph::Flow;
use std::alloc::{AllocError, Global};

/// A number that no ceiling need be above, with what it is made of.
#[derive(Drop)]
pub struct Size {
    /// How many passes there are in one round of each mark at most; 2^127 where that is more.
    pub rounds: Vec<u128>,
    /// How many passes of all marks there are at most; 2^127 where that is more.
    pub passes: u128,
    /// What it takes to go through each node once, at most.
    pub unit: u128,
    /// As much for each pass, and once more; 2^127 where that is more.
    pub whole: u128,
}

impl Size {
    /// That of a flow none of whose steps takes more than `longest` word times.
    pub fn of(alloc: Global, flow: &Flow<'_>, longest: u32) -> Result<Size, AllocError>
        ensures { IfOk result (IsSizeBy (notes_of flow.now).marks
            (length (nodes_of flow.now)) longest) }
    {
        let marks = flow.notes().marks();
        let rounds = rounds_of(alloc, marks)?;
        let passes = passes_in_all(marks, &rounds);
        let nodes = flow.size();
        let unit = nodes as u128 * u128::from(longest);
        let whole = product(unit, sum(1, passes));
        Ok(Size {
            rounds,
            passes,
            unit,
            whole,
        })
    }

    /// Whether none of these prices is above it.
    pub fn has(&self, prices: &[u128]) -> bool
        ensures { IsTrue result ↔ All (λ price. price ≤ self.now.whole) prices.now }
    {
        prices.iter().all(|price| *price <= self.whole)
    }
}
