//! What the elements of a document's array of calls open.

ghost use Rattle.std.specs.Prelude.{◌≡◌, take, option_map};
ghost use Rattle.std.specs.List.{list_any};
ghost use Rattle.read_toml.specs.Calls as said;
ghost use Rattle.read_toml.specs.Opened.{opening};
ghost use Rattle.toml.specs.View.{view, table_view, items_view};

use crate::document::fields::{Fields, items};
use crate::document::values::location_at;
use base_notes::Edge;
use base_words::Location;
use toml::{Table, Value};

/// What a call opens: the exit, where its edge is passed.
#[derive(Clone, Copy)]
pub struct Opened {
    pub edge: Edge,
    pub exit: Location,
}

/// What a call's table says that it opens; nothing where one of the locations isn't there.
fn opened_in(table: &Table) -> Option<Opened>
    ensures { option_map opening result ≡ said.opening_in (table_view table.now) }
{
    let from = location_at(table, "from")?;
    let onto = location_at(table, "to")?;
    let exit = location_at(table, "exit")?;
    Some(Opened {
        edge: Edge { from, onto },
        exit,
    })
}

/// What an element says that it opens.
fn opened_said(value: &Value) -> Option<Opened>
    ensures { option_map opening result ≡ said.opening_said (view value.now) }
{
    opened_in(value.as_table()?)
}

/// Whether an element says that it opens this.
fn opens(value: &Value, opened: Opened) -> bool
    ensures { result ≡ said.is_opening (opening opened) (said.opening_said (view value.now)) }
{
    match opened_said(value) {
        Some(one) => is_same(one, opened),
        None => false,
    }
}

/// Whether two calls open one exit by one edge.
fn is_same(one: Opened, other: Opened) -> bool
    ensures { result ≡ said.is_same_opening (opening one) (opening other) }
{
    one.exit.number == other.exit.number && other.edge.leads(one.edge.from, one.edge.onto)
}

/// Whether one of these elements says that it opens this.
fn is_opened(items: &[Value], opened: Opened) -> bool
    ensures { result ≡ list_any (said.is_opening (opening opened))
        (said.openings_said (items_view items.now)) }
{
    for item in items {
        if opens(item, opened) {
            return true;
        }
    }
    false
}

/// The first elements of the document's array of calls, so many of them if there are as many.
fn first_calls<'a>(fields: &Fields<'a>, count: usize) -> &'a [Value]
    ensures { said.openings_said (items_view result.now)
        ≡ take count (said.openings_in (table_view fields.now.whole.now)) }
{
    let all = items(fields.whole, "call");
    &all[..count.min(all.len())]
}

/// Whether a call opens what one of so many earlier ones opens.
pub fn repeats(fields: &Fields<'_>, earlier: usize) -> bool
    ensures { result ≡ said.is_opened
        (take earlier (said.openings_in (table_view fields.now.whole.now)))
        (said.opening_in (table_view fields.now.table.now)) }
{
    match opened_in(fields.table) {
        Some(opened) => is_opened(first_calls(fields, earlier), opened),
        None => false,
    }
}
