use base_words::Word;
use machine_steps::Why;

/// How a machine has stopped: at which word, and why.
#[derive(Clone, Copy, Debug, PartialEq, Eq)]
pub struct Stop {
    /// The word that was fetched.
    pub word: Word,
    /// Why it stopped.
    pub why: Why,
}
