//! The marks of long notes, checked and read.

ghost use Rattle.std.specs.Prelude.{◌≡◌, ℕ, Option, codes, IfOk, IfSome, IsTrue, Some};
ghost use Rattle.base_notes.specs.Names.{is_name};
ghost use Rattle.read_toml.specs.Elements.{HoldsMark};
ghost use Rattle.read_toml.specs.LongMarks as said;
ghost use Rattle.toml.specs.View.{table_view};

use super::named::{first_marks, first_named};
use super::read_edges::{MarkEdges, lists_edges, read_edges};
use crate::document::element::{Checked, Element};
use crate::document::faults::Faults;
use crate::document::fields::Fields;
use crate::document::value;
use base_notes::{Mark, Name};
use std::alloc::AllocError;

/// The index of the mark that the one with this index stands inside of: the one that has the name
/// or the number that the table says.
fn read_outer(fields: &Fields<'_>, place: usize) -> Option<usize>
    requires { (outer : Option ℕ)
        × said.StandsIn (said.names_in (table_view fields.now.whole.now)) place
        (table_view fields.now.table.now) outer }
    ensures { said.StandsIn (said.names_in (table_view fields.now.whole.now)) place
        (table_view fields.now.table.now) result }
{
    let value = fields.get("inside")?;
    match value.as_str() {
        Some(name) => first_named(first_marks(fields, place), name),
        None => (value::number(value) as usize).checked_sub(1),
    }
}

/// The name that a mark's table says, if it says one.
fn read_name(fields: &Fields<'_>) -> Result<Option<Name>, AllocError>
    requires { IfSome (said.name_in (Some (table_view fields.now.table.now)))
        (λ text. IsTrue (is_name text)) }
    ensures { IfOk result (λ name. name ≡ said.name_in (Some (table_view fields.now.table.now))) }
{
    let Some(value) = fields.get("name") else {
        return Ok(None);
    };
    let Some(text) = value.as_str() else {
        return Ok(None);
    };
    Ok(Name::new(String::from_str(fields.alloc, text)?))
}

impl Checked for Mark {
    ghost faults = { said.long_mark_faults };

    fn check(into: &mut Faults, fields: &Fields<'_>, place: usize) -> Result<(), AllocError> {
        let listed = lists_edges(fields);
        into.long_keys(fields, listed)?;
        into.wanted_keys(fields, listed)?;
        into.mark_edges(fields, listed)?;
        into.whole_number(fields, "most", 0, 9999)?;
        into.outer(fields, place)?;
        into.name(fields, place)?;
        Ok(())
    }
}

impl Element for Mark {
    ghost holds = { HoldsMark };

    ghost says = { said.IsMark };

    fn read(fields: &Fields<'_>, place: usize) -> Result<Mark, AllocError> {
        let edges = read_edges(fields)?;
        let edges = MarkEdges::of(fields.alloc, &edges)?;
        let name = read_name(fields)?;
        Ok(Mark {
            from: edges.first.from,
            onto: edges.first.onto,
            others: edges.others,
            most: fields.number("most") as u16,
            inside: read_outer(fields, place),
            name,
        })
    }
}
