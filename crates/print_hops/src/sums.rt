use crate::spent::Spent;

/// What hops of one kind take in all.
#[derive(Clone, Copy)]
pub struct Sums {
    /// How many hops there are.
    pub visits: u128,
    /// All of their word times.
    pub time: u128,
    /// The word times for which they wait for their instructions, until these are found.
    pub instruction: u128,
    /// The word times for which they wait for their data, from when their instructions are ready.
    pub operand: u128,
}

impl Sums {
    ghost use Rattle.std.specs.Prelude.{◌≡◌, ◌+◌, ◌-◌, ◌*◌, ◌^◌, ◌<◌};

    /// What so many hops take, each of which takes this.
    pub fn of(spent: &Spent, often: u128) -> Sums
        requires time { often * spent.now.time < 2 ^ 128 }
        requires instruction { often * spent.now.instruction < 2 ^ 128 }
        requires operand { often * spent.now.operand < 2 ^ 128 }
        ensures visits { result.visits ≡ often }
        ensures time { result.time ≡ often * spent.now.time }
        ensures instruction { result.instruction ≡ often * spent.now.instruction }
        ensures operand { result.operand ≡ often * spent.now.operand }
    {
        Sums {
            visits: often,
            time: often * u128::from(spent.time),
            instruction: often * u128::from(spent.instruction),
            operand: often * u128::from(spent.operand),
        }
    }

    /// The sum of both.
    pub fn plus(&self, other: &Sums) -> Sums
        requires visits { self.now.visits + other.now.visits < 2 ^ 128 }
        requires time { self.now.time + other.now.time < 2 ^ 128 }
        requires instruction { self.now.instruction + other.now.instruction < 2 ^ 128 }
        requires operand { self.now.operand + other.now.operand < 2 ^ 128 }
        ensures visits { result.visits ≡ self.now.visits + other.now.visits }
        ensures time { result.time ≡ self.now.time + other.now.time }
        ensures instruction { result.instruction
            ≡ self.now.instruction + other.now.instruction }
        ensures operand { result.operand ≡ self.now.operand + other.now.operand }
    {
        Sums {
            visits: self.visits + other.visits,
            time: self.time + other.time,
            instruction: self.instruction + other.instruction,
            operand: self.operand + other.operand,
        }
    }

    /// The rest: what the operations take themselves, with their waits for a parity and for the
    /// card machine.
    pub fn work(&self) -> u128
        ensures { result ≡ self.now.time - self.now.instruction - self.now.operand }
    {
        self.time
            .saturating_sub(self.instruction)
            .saturating_sub(self.operand)
    }
}
