use crate::spent::Spent;

/// What all hops of a walk wait, in word times.
#[derive(Clone, Copy)]
pub struct Waited {
    /// For their instructions, until these are found.
    pub instruction: u128,
    /// For their data, from when their instructions are ready.
    pub operand: u128,
    /// For the card machine.
    pub cards: u128,
}

impl Waited {
    ghost use Rattle.std.specs.Prelude.{◌≡◌, ◌+◌, ◌-◌, ◌*◌, ◌^◌, ◌<◌};

    /// What no hop waits.
    pub fn none() -> Waited
        ensures instruction { result.instruction ≡ 0 }
        ensures operand { result.operand ≡ 0 }
        ensures cards { result.cards ≡ 0 }
    {
        Waited {
            instruction: 0,
            operand: 0,
            cards: 0,
        }
    }

    /// This with what a hop waits, which comes so often.
    pub fn with(&self, spent: &Spent, often: u128) -> Waited
        requires instruction { self.now.instruction + often * spent.now.instruction < 2 ^ 128 }
        requires operand { self.now.operand + often * spent.now.operand < 2 ^ 128 }
        requires cards { self.now.cards + often * spent.now.cards < 2 ^ 128 }
        ensures instruction { result.instruction
            ≡ self.now.instruction + often * spent.now.instruction }
        ensures operand { result.operand ≡ self.now.operand + often * spent.now.operand }
        ensures cards { result.cards ≡ self.now.cards + often * spent.now.cards }
    {
        Waited {
            instruction: self.instruction + often * u128::from(spent.instruction),
            operand: self.operand + often * u128::from(spent.operand),
            cards: self.cards + often * u128::from(spent.cards),
        }
    }

    /// The rest of the word times that the hops take: what their operations take themselves, with
    /// their waits for a parity.
    pub fn work(&self, time: u128) -> u128
        ensures { result
            ≡ time - self.now.instruction - self.now.operand - self.now.cards }
    {
        time.saturating_sub(self.instruction)
            .saturating_sub(self.operand)
            .saturating_sub(self.cards)
    }
}
