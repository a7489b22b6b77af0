use crate::parts::Parts;

/// Where the word times of a walk go.
#[derive(Clone, Copy)]
pub struct Shares {
    /// Waiting for instructions.
    pub instructions: u128,
    /// Waiting for data.
    pub data: u128,
    /// Work.
    pub work: u128,
    /// Waiting for cards.
    pub cards: u128,
}

/// These word times and those from one clock to another, so often.
fn more(so_far: u128, from: u64, to: u64, taken: u128) -> u128 {
    let time = u128::from(to.saturating_sub(from));
    so_far.saturating_add(time.saturating_mul(taken))
}

impl Shares {
    /// Of no word times.
    pub const NONE: Shares = Shares {
        instructions: 0,
        data: 0,
        work: 0,
        cards: 0,
    };

    /// These, and where the word times of a hop go that is taken so often.
    pub fn with(self, parts: Parts, taken: u128) -> Shares {
        let before = more(self.work, parts.found, parts.ready, taken);
        Shares {
            instructions: more(self.instructions, parts.begun, parts.found, taken),
            data: more(self.data, parts.ready, parts.reached, taken),
            work: more(before, parts.reached, parts.worked, taken),
            cards: more(self.cards, parts.worked, parts.ended, taken),
        }
    }
}
