//! Laws of the definitions of `read_toml`.

ghost use Rattle.std.specs.Prelude.{◌≡◌, []};
ghost use Rattle.base_notes.specs.Allowed.{Notes};
ghost use Rattle.read_toml.specs.LongNotes.{IsLongNotes};
ghost use Rattle.read_toml.specs.ShortNotes.{IsNotes, notes_faults};
ghost use Rattle.toml.specs.Data.{Members};

/// A document says short notes exactly if it has no fault, as `read_toml` has it of a timing table
/// and of long notes: so what says them is read, memory aside, and what says none is refused.
pub fn says_notes()
    ensures right { (document : Members) (notes : Notes) → IsNotes document notes
        → notes_faults document ≡ [] }
    ensures said { (document : Members) → notes_faults document ≡ []
        → (notes : Notes) × IsNotes document notes }
{}

/// What says short notes says the same long notes.
pub fn short_notes_are_long()
    ensures { (document : Members) (notes : Notes) → IsNotes document notes
        → IsLongNotes document notes }
{}
