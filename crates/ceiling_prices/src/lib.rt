//! The search for prices that make a ceiling low. Nothing is promised of what is found, but that
//! it is found in the end: who takes it looks whether it is a certificate.
//!
//! Code, from the bottom up. `marks` has how the marks stand in one another, `reached` the rows of
//! where walks come, and `regions` where rounds of each mark pass; `graph` puts them together, over
//! tables `by_site`. `prices` tells what an edge takes at prices, `rounds` what a mark's price has
//! to be, once others have theirs, by the `ways` round it and their `cycles`, and `settling` gives
//! the marks their prices in an `order`. `levels` sums up what walks take on from each site.
//! `linear` makes the net over which `ceiling_optimum` looks for the least prices of all. Where
//! those weren't found, or aren't whole, `tries` looks for a better order and higher prices, with
//! the limits of how long. What all of it comes to is `found`.
#![tactic(auto)]

mod by_site;
mod cycles;
mod found;
mod graph;
mod levels;
mod linear;
mod marks;
mod order;
mod prices;
mod reached;
mod regions;
mod rounds;
mod settling;
mod tries;
mod ways;

use base_notes::Mark;
use ceiling_optimum::{Budget, Optimum, least_prices};
use ceiling_rows::SiteRow;
pub use found::Found;
use graph::Graph;
use linear::net_of;
use std::alloc::{AllocError, Global};
use tries::Tries;

/// Prices that make the ceiling low, by the rows of sites, an order of them in which every edge
/// without a mark goes on, the number of the start's, and the marks.
pub fn find(
    alloc: Global,
    rows: &[SiteRow],
    order: &[usize],
    start: usize,
    marks: &[Mark],
    budget: &mut Budget,
) -> Result<Found, AllocError> {
    let graph = Graph::of(alloc, rows, order, start, marks)?;
    let optimum = optimum_of(alloc, &graph, budget)?;
    let mut tries = Tries::new(alloc, &graph)?;
    if !tries.takes(&optimum)? {
        tries.improve()?;
    }
    let (prices, levels) = tries.finish();
    let shares = match optimum {
        Some(optimum) => optimum.shares,
        None => Vec::new(alloc),
    };
    Found::of(alloc, graph, &prices, &levels, shares)
}

/// The least prices, if they are found.
fn optimum_of(
    alloc: Global,
    graph: &Graph<'_>,
    budget: &mut Budget,
) -> Result<Option<Optimum>, AllocError> {
    let net = net_of(alloc, graph)?;
    least_prices(alloc, &net, budget)
}
