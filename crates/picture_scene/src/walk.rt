//! Which walk is drawn, and how long it takes.

use crate::tenths::Tenths;
use machine_steps::Verdict;

/// Which walk it is.
#[derive(Clone, Copy)]
pub enum Kind {
    /// The worst walk of an analysis, which takes as long as the bound.
    Worst,
    /// A walk in rounds, beside this ceiling.
    InRounds(u128),
    /// That of a run with this verdict.
    Run(Verdict),
}

/// The walk that is drawn.
#[derive(Clone, Copy)]
pub struct Walk {
    pub kind: Kind,
    /// The drum's angle when it begins.
    pub angle: u64,
    /// The word times that it takes.
    pub time: u128,
}

impl Walk {
    /// What it is called at the beginning of a title.
    pub fn name(self) -> &'static str {
        match self.kind {
            Kind::Worst => "The worst walk",
            Kind::InRounds(_) => "The walk in rounds",
            Kind::Run(_) => "The run",
        }
    }

    /// What it is, in a word.
    pub fn noun(self) -> &'static str {
        match self.kind {
            Kind::Worst | Kind::InRounds(_) => "walk",
            Kind::Run(_) => "run",
        }
    }

    /// The revolution in which it ends, from 1.
    pub fn last_revolution(self) -> u128 {
        let end = self.time.saturating_add(u128::from(self.angle));
        end.saturating_add(49) / 50
    }

    /// How many revolutions it takes, rounded.
    pub fn revolutions(self) -> Tenths {
        Tenths {
            count: self.time.saturating_add(2) / 5,
        }
    }

    /// How many seconds it takes at 96 microseconds a word time, rounded.
    pub fn seconds(self) -> Tenths {
        // 3 tenths to 3125 word times: the whole ones first, so that the product fits
        let rest = (self.time % 3125 * 3 + 1562) / 3125;
        Tenths {
            count: (self.time / 3125 * 3).saturating_add(rest),
        }
    }

    /// How many milliseconds it takes at 96 microseconds a word time, rounded.
    pub fn milliseconds(self) -> Tenths {
        // 24 tenths to 25 word times: the whole ones first, so that the product fits
        let rest = (self.time % 25 * 24 + 12) / 25;
        Tenths {
            count: (self.time / 25 * 24).saturating_add(rest),
        }
    }
}
