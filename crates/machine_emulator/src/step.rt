use base_words::{Location, Word};
use machine_steps::Why;

/// What a step of the machine did.
#[derive(Clone, Copy, Debug, PartialEq, Eq)]
pub enum Step {
    /// It goes on.
    Went {
        /// Where the step began.
        origin: Location,
        /// The word that was fetched there.
        word: Word,
        /// Where the next step begins.
        next: Location,
        /// The word times used since time 0, this step's among them.
        used: u64,
        /// Whether it read a load card.
        load: bool,
        /// The words that it punched, for 71.
        punched: Option<[Word; 10]>,
    },
    /// It stopped, or the machine had stopped before.
    Stopped {
        /// Where the step began.
        origin: Location,
        /// The word that was fetched there.
        word: Word,
        /// Why it stopped.
        why: Why,
        /// The word times used since time 0, up to the stop.
        used: u64,
    },
}
