//! The least prices by which no cycle of a net takes longer than it pays, so that what is owed at
//! the start comes to as little as can be: a linear program, whose columns are ways, found as they
//! are needed. Nothing is promised of what is found, but that the search ends: who takes it looks
//! whether it is right.
//!
//! Code, from the bottom up. `budget` has the steps that a search may take, and `floats` what lies
//! between floats and whole numbers. `net` is what is searched, and `prices` what is charged there.
//! `longest` looks for the longest ways at prices, and where there are none for the `cycles` that
//! don't pay. Ways are `columns`; `basis` has those that are taken, `exact` what they come to in
//! whole numbers, and `simplex` changes them until none brings more. `raising` raises prices by a
//! first rule; `search` puts all of that together, and `whole` rounds what it comes to. `shares`
//! tells how often each way is taken; `detours` leads to those that no other one comes to, by
//! `ways` from and to them.
#![tactic(auto)]

mod basis;
mod budget;
mod columns;
mod cycles;
mod detours;
mod exact;
mod floats;
mod longest;
mod net;
mod prices;
mod raising;
mod search;
mod shares;
mod simplex;
mod ways;
mod whole;

pub use budget::Budget;
use detours::Detours;
pub use net::{Charge, Link, Net, Rank, Step};
use prices::Prices;
use search::{Search, Settled};
pub use shares::Share;
use std::alloc::{AllocError, Global};

/// How many of the steps are for whole prices at most, where the least ones aren't whole.
const WHOLE: u64 = 4_000_000;

/// Prices that pay for all, and what they come to.
#[derive(Drop)]
pub struct Optimum {
    pub prices: Vec<i128>,
    /// Whether no other prices come to less.
    pub is_least: bool,
    /// How often each way is taken where all of it is used.
    pub shares: Vec<Share>,
}

/// The least prices of a net, in whole word times; `None` where none was found that pays for all
/// before the steps were used up.
pub fn least_prices(
    alloc: Global,
    net: &Net,
    budget: &mut Budget,
) -> Result<Option<Optimum>, AllocError> {
    let mut search = Search::new(alloc, net)?;
    let list = vec![in alloc; 0; net.ranks.len()]?;
    let Some(first) = search.raised(Prices { unit: 1, list }, budget)? else {
        return Ok(None);
    };
    search.add_path()?;
    let least = search.least(budget)?;
    let near = least.as_ref().unwrap_or(&first);
    let shares = shares_of(&search, near, budget)?;
    let (settled, is_least) = match least {
        Some(least) if least.prices.unit == 1 => (Some(least), true),
        Some(least) => {
            let mut part = budget.part(WHOLE);
            let whole = search.whole(&least.prices, Some(first), &mut part)?;
            budget.take_back(part);
            (whole, false)
        }
        None => (Some(first), false),
    };
    Ok(settled.map(|settled| Optimum {
        prices: settled.prices.list,
        is_least,
        shares,
    }))
}

/// How often each way of a search is taken, with detours at these prices.
fn shares_of(
    search: &Search<'_>,
    near: &Settled,
    budget: &mut Budget,
) -> Result<Vec<Share>, AllocError> {
    let (alloc, net) = (search.alloc, search.net);
    let parts = search.simplex.parts(alloc)?;
    let mut detours = Detours::of(alloc, net, &near.prices, parts)?;
    detours.connect(budget)?;
    let mut shares = Vec::new(alloc);
    for part in &detours.parts {
        shares.push(part.share(alloc, net)?)?;
    }
    Ok(shares)
}
