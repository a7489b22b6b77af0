//! The marks of short notes, checked.

ghost use Rattle.read_toml.specs.ShortNotes as said;

use crate::document::element::Checked;
use crate::document::faults::Faults;
use crate::document::fields::Fields;
use std::alloc::AllocError;

/// A mark of short notes: on one edge, and without a name. It is read as one of long notes.
pub struct ShortMark;

impl Checked for ShortMark {
    ghost faults = { λ _. said.mark_faults };

    fn check(into: &mut Faults, fields: &Fields<'_>, place: usize) -> Result<(), AllocError> {
        into.unknown(fields, &["from", "to", "most", "inside"])?;
        into.missing(fields, &["from", "to", "most"])?;
        into.location(fields, "from")?;
        into.location(fields, "to")?;
        into.whole_number(fields, "most", 0, 9999)?;
        into.whole_number(fields, "inside", 1, place as u64)?;
        Ok(())
    }
}
