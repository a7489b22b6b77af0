//! What a command line asks for.

/// The files that every command works on.
#[derive(Clone, Copy)]
pub struct Files<'a> {
    /// The deck: cards for the drum.
    pub deck: &'a str,
    /// The timing table.
    pub times: &'a str,
    /// The notes on loops and altered words.
    pub notes: &'a str,
}

/// What is asked of a deck with its timing table and notes.
#[derive(Clone, Copy)]
pub enum Question {
    /// The most word times that any run takes that keeps to the notes.
    Bound,
    /// Where the worst walk spends the word times of the bound, by card.
    Report,
    /// The worst walk itself, visit by visit.
    Walk,
    /// Where the worst walk waits, and for what, by instruction.
    Waits,
    /// The table of worst times: when a location is reached at the latest, by the marks' counts.
    Table,
    /// How large the analysis is: executed words, their hops, counts, entries of the table.
    Size,
    /// The flow graph, of whatever the deck and the notes are.
    Graph,
    /// The flow graph with words that go straight on from one to the next as one box.
    Outline,
    /// A picture of the worst walk.
    Draw,
    /// A number of word times that no run which keeps to the notes passes, however much the notes
    /// let the deck's loops run.
    Ceiling,
}

/// What a command line asks for.
#[derive(Clone, Copy)]
pub enum Command<'a> {
    /// The answer to a question.
    Answer(Question, Files<'a>),
    /// All that keeps the deck from having a bound under the notes; and what is wrong with the
    /// inputs of the last file, if it is named.
    Check(Files<'a>, Option<&'a str>),
    /// The verdict on one run, which is given the inputs of the last file.
    Replay(Files<'a>, &'a str),
    /// That run, step by step, and the verdict on it.
    Trace(Files<'a>, &'a str),
    /// A picture of that run.
    DrawRun(Files<'a>, &'a str),
}
