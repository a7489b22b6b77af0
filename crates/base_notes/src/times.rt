ghost use Rattle.std.specs.Prelude.{◌≡◌, length, slice_index_or};

use crate::entry::Entry;
use base_words::Op;

/// A timing table: how long each operation takes.
#[derive(Clone, Copy, Debug, PartialEq, Eq)]
pub struct Times {
    /// By the operation's two digits; what stands at other numbers means nothing.
    entries: [Entry; 100],
    ghost all: { length entries ≡ 100 },
}

impl Times {
    ghost use Rattle.base_words.specs.declared.op.Op.{Op};
    ghost use Rattle.base_words.specs.Op.{number_of};
    ghost use Rattle.base_notes.specs.Entries.{blank, entry_in};

    /// The timing table of these entries, each at the number that its operation's two digits are.
    /// What stands at a number that is no operation's means nothing.
    pub fn new(entries: [Entry; 100]) -> Times
        ensures { (op : Op) → entry_in result op
            ≡ slice_index_or entries (number_of op) blank }
    {
        Times { entries }
    }

    /// The entry of the operation: how long it takes.
    pub fn entry(&self, op: Op) -> Entry
        ensures { result ≡ entry_in self.now op }
    {
        self.entries[op.number() as usize]
    }
}
