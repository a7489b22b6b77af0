ghost use Rattle.std.specs.Prelude.{◌≡◌, ◌+◌, ◌^◌, ◌<◌};

use flow_walks::Visit;

/// How many hops there are, and the word times that they take.
#[derive(Clone, Copy)]
pub struct Tally {
    pub visits: u64,
    pub time: u64,
}

impl Tally {
    /// The tally of no hops.
    pub const NONE: Tally = Tally { visits: 0, time: 0 };

    /// The tally with a hop more.
    pub fn with(&self, visit: &Visit) -> Tally
        requires few { self.now.visits < 2 ^ 62 }
        requires short { self.now.time + visit.now.took < 2 ^ 62 }
        ensures visits { result.visits ≡ self.now.visits + 1 }
        ensures time { result.time ≡ self.now.time + visit.now.took }
    {
        Tally {
            visits: self.visits + 1,
            time: self.time + u64::from(visit.took),
        }
    }
}
