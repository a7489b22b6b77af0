//! The lists of notes and their patterns, checked and read.

ghost use Rattle.base_notes.specs.Listed.{listed};
ghost use Rattle.read_toml.specs.Elements.{HoldsList, HoldsPattern};
ghost use Rattle.read_toml.specs.NotesDocument as said;

use crate::document::element::{Checked, Element};
use crate::document::faults::Faults;
use crate::document::fields::Fields;
use base_notes::{Listing, Pattern};
use std::alloc::AllocError;

impl Checked for Pattern {
    ghost faults = { λ _. said.pattern_faults };

    fn check(into: &mut Faults, fields: &Fields<'_>, _place: usize) -> Result<(), AllocError> {
        let keys = ["op", "d_from", "d_to", "i"];
        into.unknown(fields, &keys)?;
        into.missing(fields, &keys)?;
        into.whole_number(fields, "op", 0, 99)?;
        into.whole_number(fields, "d_from", 0, 9999)?;
        let least = fields.number("d_from");
        into.whole_number(fields, "d_to", least, 9999)?;
        into.whole_number(fields, "i", 0, 9999)?;
        Ok(())
    }
}

impl Element for Pattern {
    ghost holds = { λ _ _. HoldsPattern };

    ghost says = { λ _ _. said.IsPattern };

    fn read(fields: &Fields<'_>, _place: usize) -> Result<Pattern, AllocError> {
        Ok(Pattern {
            op: fields.number("op") as u8,
            d_from: fields.number("d_from") as u16,
            d_to: fields.number("d_to") as u16,
            i: fields.number("i") as u16,
        })
    }
}

impl Checked for Listing {
    ghost faults = { λ _. said.list_faults };

    fn check(into: &mut Faults, fields: &Fields<'_>, _place: usize) -> Result<(), AllocError> {
        let keys = ["location", "pattern"];
        into.unknown(fields, &keys)?;
        into.missing(fields, &keys)?;
        into.location(fields, "location")?;
        into.tables::<Pattern>(fields, "pattern", 1, Some(Listing::MOST))?;
        Ok(())
    }
}

impl Element for Listing {
    ghost holds = { λ _ _. HoldsList };

    ghost says = { λ _ _ fields list. said.IsListed fields (listed list) };

    fn read(fields: &Fields<'_>, _place: usize) -> Result<Listing, AllocError> {
        Ok(Listing {
            location: fields.location("location"),
            patterns: fields.elements("pattern")?,
        })
    }
}
