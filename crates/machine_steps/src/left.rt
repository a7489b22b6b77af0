use base_words::{Location, Word};

/// How a run left the notes.
#[derive(Clone, Copy, Debug, PartialEq, Eq)]
pub enum Left {
    /// The word fetched at a location with a list is neither on the list nor the deck's own there.
    Unlisted(Location, Word),
    /// The mark from the one location to the other was passed more often than it allows.
    TooOften(Location, Location),
    /// The programmed switch isn't where the notes say that it stands.
    Switch,
    /// A load card was read, though the notes say that none is.
    LoadCard,
    /// From the exit of a call, which is the one location, the run went on to the other, and not to
    /// the way back that was open there.
    NotBack(Location, Location),
}
