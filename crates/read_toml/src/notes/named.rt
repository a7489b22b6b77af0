//! The names that the elements of a document's array of marks say.

ghost use Rattle.std.specs.Prelude.{◌≡◌, ◌<◌, Some, true, false, take, slice_get, length};
ghost use Rattle.std.specs.Prelude.{option_map, IfNone, IfSome};
ghost use Rattle.read_toml.specs.LongMarks as said;
ghost use Rattle.toml.specs.View.{view, table_view, items_view};

use crate::document::fields::{Fields, items, member};
use toml::Value;

/// The name that an element says, if it says one.
fn name_said(value: &Value) -> Option<&str>
    ensures { option_map (λ text. text.now) result ≡ said.name_said (view value.now) }
{
    let Some(table) = value.as_table() else {
        return None;
    };
    let Some(name) = member(table, "name") else {
        return None;
    };
    name.as_str()
}

/// Whether an element says this name.
fn says_name(value: &Value, name: &str) -> bool
    ensures { result ≡ said.is_name_of name.now (said.name_said (view value.now)) }
{
    match name_said(value) {
        Some(text) => text == name,
        None => false,
    }
}

/// The index of the first of these elements that says this name.
pub fn first_named(items: &[Value], name: &str) -> Option<usize>
    ensures none { IfNone result
        (said.is_named (said.names_said (items_view items.now)) name.now ≡ false) }
    ensures named { IfSome result (λ _.
        said.is_named (said.names_said (items_view items.now)) name.now ≡ true) }
    ensures some { IfSome result (λ place. (place < length items.now)
        × (slice_get (said.names_said (items_view items.now)) place ≡ Some (Some name.now))) }
{
    for (place, value) in items.iter().enumerate() {
        if says_name(value, name) {
            return Some(place);
        }
    }
    None
}

/// Whether one of these elements says this name.
pub fn is_named(items: &[Value], name: &str) -> bool
    ensures { result ≡ said.is_named (said.names_said (items_view items.now)) name.now }
{
    first_named(items, name).is_some()
}

/// The first elements of the document's array of marks, so many of them if there are as many.
pub fn first_marks<'a>(fields: &Fields<'a>, count: usize) -> &'a [Value]
    ensures { said.names_said (items_view result.now)
        ≡ take count (said.names_in (table_view fields.now.whole.now)) }
{
    let all = items(fields.whole, "mark");
    &all[..count.min(all.len())]
}
