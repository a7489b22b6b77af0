use machine_emulator::{Feed, Setup};

/// What a machine is set up with and fed with for a replay.
#[derive(Debug, Drop)]
pub struct Inputs {
    /// What the machine is set up with, beside its deck.
    pub setup: Setup,
    /// What its card machine is fed with: cards, and waits.
    pub feed: Feed,
}

impl Inputs {
    /// The most lines of a text of inputs.
    pub const LINES: u16 = 4000;

    /// The most bytes of a line, without its line feed.
    pub const LINE: usize = 200;

    /// The most bytes of a text.
    pub const BYTES: usize = Inputs::LINES as usize * (Inputs::LINE + 1);
}
