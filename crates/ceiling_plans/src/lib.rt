//! The search for a walk in rounds by a plan: how often each edge is to be taken, as the linear
//! program behind a ceiling has it. Nothing is promised of what is found, but that the search ends:
//! who takes it looks whether it is a walk.
//!
//! Code, from the bottom up. `marks` has how the marks stand in one another, and `places` the
//! places and kinds of edges that a plan counts passes of; `plan` is how often each kind is taken.
//! `strong` finds what leads to one another, `opening` chooses the mark at which a loop is opened,
//! and `loops` has the loops in one another. `owed` tells what is owed by the prices, `stock` what
//! is left of a plan and of a visit's share, which is all of that or an even one (`sharing`), and
//! `ways_back` whether a way leads back to where it began. `trail` has the pieces so far; `walking`
//! goes on step by step, where `choosing` tells by which edge, and `rounds` takes rounds at once.
#![tactic(auto)]

mod choosing;
mod loops;
mod marks;
mod opening;
mod owed;
mod places;
mod plan;
mod rounds;
mod sharing;
mod stock;
mod strong;
mod trail;
mod walking;
mod ways_back;

use base_notes::{Mark, Times};
use base_words::REVOLUTION;
use ceiling_optimum::{Budget, Share};
use ceiling_pieces::Laying;
use ceiling_rows::SiteRow;
use flow_walks::Piece;
use loops::Loops;
use marks::Marks;
pub use owed::Owed;
use places::Places;
use plan::Plan;
use sharing::Sharing;
use std::alloc::{AllocError, Global};
use stock::Stock;
use trail::Trail;
use walking::Walking;
use ways_back::{Ground, WaysBack};

/// How many steps one walk may take of the budget.
const WALK: u64 = 10_000_000;

/// What walks are strung together over: the timing table, the marks, the rows of sites, the number
/// of the start's, and what is owed by the prices of the ceiling.
#[derive(Clone, Copy)]
pub struct Task<'a> {
    pub times: &'a Times,
    pub marks: &'a [Mark],
    pub rows: &'a [SiteRow],
    pub first: usize,
    pub owed: Owed<'a>,
    /// A walk that takes as long need not be looked for to take longer.
    pub most: u128,
}

impl<'a> Task<'a> {
    /// These together.
    pub fn new(
        times: &'a Times,
        marks: &'a [Mark],
        rows: &'a [SiteRow],
        first: usize,
        owed: Owed<'a>,
        most: u128,
    ) -> Task<'a> {
        Task {
            times,
            marks,
            rows,
            first,
            owed,
            most,
        }
    }
}

/// The pieces of a walk, with the word times that it takes as the search reckons.
#[derive(Drop)]
pub struct Found {
    pub time: u128,
    pub pieces: Vec<Piece>,
}

/// The pieces of a walk that takes as long as was found, by how often each way is to be taken.
/// None, where no walk was found.
pub fn find(
    alloc: Global,
    task: Task<'_>,
    shares: &[Share],
    budget: &mut Budget,
) -> Result<Found, AllocError> {
    let marks = Marks::of(alloc, task.marks)?;
    let places = Places::of(alloc, task.rows)?;
    let way = Way {
        task,
        marks: &marks,
        places: &places,
        shares,
    };
    let mut best = Found {
        time: 0,
        pieces: Vec::new(alloc),
    };
    for manner in Manner::ALL {
        let has_parts = shares.iter().any(|share| share.has_part);
        if best.time < task.most && (has_parts || !manner.is_up) {
            let other = way.strung(alloc, manner, budget)?;
            best = if other.time > best.time { other } else { best };
        }
    }
    Ok(best)
}

/// How a walk goes by its plan.
#[derive(Clone, Copy)]
struct Manner {
    /// Whether parts of a time are rounded up.
    is_up: bool,
    /// Whether each visit of a loop gets an even share.
    is_even: bool,
    /// Whether it rather goes into a loop than past it.
    goes_in: bool,
}

impl Manner {
    /// All that are tried, one after the other, until a walk takes as long as any.
    const ALL: [Manner; 8] = [
        Manner {
            is_up: false,
            is_even: false,
            goes_in: false,
        },
        Manner {
            is_up: false,
            is_even: true,
            goes_in: false,
        },
        Manner {
            is_up: false,
            is_even: false,
            goes_in: true,
        },
        Manner {
            is_up: false,
            is_even: true,
            goes_in: true,
        },
        Manner {
            is_up: true,
            is_even: false,
            goes_in: false,
        },
        Manner {
            is_up: true,
            is_even: true,
            goes_in: false,
        },
        Manner {
            is_up: true,
            is_even: false,
            goes_in: true,
        },
        Manner {
            is_up: true,
            is_even: true,
            goes_in: true,
        },
    ];
}

/// What all walks are strung together from.
#[derive(Clone, Copy)]
struct Way<'a> {
    task: Task<'a>,
    marks: &'a Marks,
    places: &'a Places,
    shares: &'a [Share],
}

impl Way<'_> {
    /// A walk that goes in this manner.
    fn strung(
        self,
        alloc: Global,
        manner: Manner,
        budget: &mut Budget,
    ) -> Result<Found, AllocError> {
        let plan = Plan::of(alloc, self.places, self.shares, manner.is_up)?;
        let loops = Loops::of(alloc, self.places, self.marks, &plan)?;
        let start = self.places.at(self.task.first);
        let sharing = if manner.is_even {
            Some(Sharing::of(alloc, &plan, &loops, self.places, start)?)
        } else {
            None
        };
        let ground = Ground::new(self.task.rows, self.marks, self.places, &loops);
        let stock = Stock::of(&plan, sharing)?;
        go_along(alloc, self.task, ground, manner.goes_in, stock, budget)
    }
}

/// The walk that takes what there is.
fn go_along<'a>(
    alloc: Global,
    task: Task<'a>,
    ground: Ground<'a>,
    goes_in: bool,
    stock: Stock,
    budget: &mut Budget,
) -> Result<Found, AllocError> {
    let row = task.rows.get(task.first);
    let number = row.map_or(0, |row| row.location.number);
    // One place behind the start the search for it takes longest.
    let angle = (u64::from(number) + 1) % REVOLUTION;
    let laying = Laying::new(alloc, task.times, task.rows);
    let trail = Trail::new(alloc, laying, ground.places.kinds.len(), angle)?;
    let part = budget.part(WALK);
    let mut walking = Walking::new(
        alloc, ground, task.owed, goes_in, stock, trail, task.first, part,
    )?;
    walking.go()?;
    let Walking {
        trail,
        budget: left,
        ..
    } = walking;
    budget.take_back(left);
    Ok(Found {
        time: trail.time(),
        pieces: trail.finish()?,
    })
}
