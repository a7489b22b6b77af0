ghost use Rattle.std.specs.Prelude.{◌≡◌};
ghost use Rattle.read_decks.specs.InDeck.{loads_in};
ghost use Rattle.check_findings.specs.UnchangedParts as said;

use base_notes::Notes;
use base_words::{Instruction, Location, Word};
use flow_graph::place::is_listed;
use read_decks::Deck;

/// What the writers of a word keep of its own instruction: each part that none of them changes, and
/// `None` for one that may be changed.
#[derive(Clone, Copy, Debug, PartialEq, Eq)]
pub struct UnchangedParts {
    /// The operation's two digits.
    pub op: Option<u8>,
    /// The data address.
    pub d: Option<u16>,
    /// The address of the next instruction.
    pub i: Option<u16>,
    /// The word as it is loaded; `None` where it isn't.
    pub loaded: Option<Word>,
}

impl UnchangedParts {
    /// Nothing of a word that is loaded so.
    fn nothing(loaded: Option<Word>) -> UnchangedParts
        ensures { result ≡ said.nothing_kept loaded }
    {
        UnchangedParts {
            op: None,
            d: None,
            i: None,
            loaded,
        }
    }

    /// What an operation that writes a word keeps of the instruction there.
    fn by_op(op: u8, instruction: Instruction, loaded: Option<Word>) -> UnchangedParts
        ensures { result ≡ said.kept_by_op op instruction loaded }
    {
        match op {
            22 => UnchangedParts {
                op: Some(instruction.op),
                d: None,
                i: Some(instruction.i),
                loaded,
            },
            23 => UnchangedParts {
                op: Some(instruction.op),
                d: Some(instruction.d),
                i: None,
                loaded,
            },
            _ => UnchangedParts::nothing(loaded),
        }
    }

    /// What the word of a writer keeps of a word, where both are loaded.
    fn by_word(writer: Option<Word>, loaded: Option<Word>) -> UnchangedParts
        ensures { result ≡ said.kept_by_word writer loaded }
    {
        match (writer, loaded) {
            (Some(writer), Some(word)) => {
                UnchangedParts::by_op(Instruction::of(writer).op, Instruction::of(word), loaded)
            }
            _ => UnchangedParts::nothing(loaded),
        }
    }

    /// What the writer at one location keeps of the instruction that is loaded at another. A writer
    /// that has a list may keep nothing; and where the writer or the word isn't loaded, nothing is
    /// sure.
    pub fn of(deck: &Deck, notes: &Notes, writer: Location, word: Location) -> UnchangedParts
        ensures { result ≡ said.kept_of (loads_in deck.now) notes.now writer.number word.number }
    {
        let loaded = deck.word(word);
        if is_listed(notes, writer) {
            return UnchangedParts::nothing(loaded);
        }
        UnchangedParts::by_word(deck.word(writer), loaded)
    }

    /// What is kept of a word that another one writes too.
    pub fn meet(self, other: UnchangedParts) -> UnchangedParts
        ensures { result ≡ said.both_keep self other }
    {
        UnchangedParts {
            op: other.op.and(self.op),
            d: other.d.and(self.d),
            i: other.i.and(self.i),
            loaded: self.loaded,
        }
    }
}
