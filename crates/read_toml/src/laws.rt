//! Laws of the definitions, each the contract of a function that does nothing.

ghost use Rattle.std.specs.Prelude.{◌≡◌, ℕ, List, [], ◌∷◌};
ghost use Rattle.base_words.specs.declared.op.Op.{Op};
ghost use Rattle.base_notes.specs.declared.entry.Entry.{Entry};
ghost use Rattle.base_notes.specs.Allowed.{Notes};
ghost use Rattle.base_notes.specs.declared.fault.NoteFault.{NoteFault};
ghost use Rattle.read_toml.specs.AllFaults.{AreAllFaults};
ghost use Rattle.read_toml.specs.LongNotes.{IsLongNotes, long_notes_faults};
ghost use Rattle.read_toml.specs.Refused.{IsDocument, IsRefused};
ghost use Rattle.read_toml.specs.TimesDocument.{IsTimes, times_faults};
ghost use Rattle.toml.specs.Data.{Members};

/// A document says a timing table exactly if it has no fault: so what says one is read, memory
/// aside, and what says none is refused.
pub fn says_times()
    ensures right { (document : Members) (times : Op → Entry) → IsTimes document times
        → times_faults document ≡ [] }
    ensures said { (document : Members) → times_faults document ≡ []
        → (times : Op → Entry) × IsTimes document times }
{}

/// And long notes likewise.
pub fn says_long_notes()
    ensures right { (document : Members) (notes : Notes) → IsLongNotes document notes
        → long_notes_faults document ≡ [] }
    ensures said { (document : Members) → long_notes_faults document ≡ []
        → (notes : Notes) × IsLongNotes document notes }
{}

/// The first of all faults of bytes is the one for which they are refused as a timing table, and
/// where there are none they are the document of one.
pub fn tells_times()
    ensures first { (bytes : List ℕ) (fault : NoteFault) (others : List NoteFault)
        → AreAllFaults times_faults bytes (fault ∷ others) → IsRefused times_faults bytes fault }
    ensures none { (bytes : List ℕ) → AreAllFaults times_faults bytes [] → (document : Members)
        × IsDocument bytes document × ((times : Op → Entry) × IsTimes document times) }
{}

/// And long notes likewise.
pub fn tells_long_notes()
    ensures first { (bytes : List ℕ) (fault : NoteFault) (others : List NoteFault)
        → AreAllFaults long_notes_faults bytes (fault ∷ others)
        → IsRefused long_notes_faults bytes fault }
    ensures none { (bytes : List ℕ) → AreAllFaults long_notes_faults bytes []
        → (document : Members) × IsDocument bytes document
        × ((notes : Notes) × IsLongNotes document notes) }
{}
