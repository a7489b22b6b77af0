//! Arrays of tables, each element of which stands for a value.
ghost use Rattle.std.specs.Prelude.{◌≡◌, ◌+◌, ◌^◌, ◌<◌, ◌++◌, List, IfOk, codes, decimal, length};
ghost use Rattle.std.specs.Prelude.{string_bytes};
ghost use Rattle.read_toml.specs.Document as document;
ghost use Rattle.read_toml.specs.Elements.{Each};
ghost use Rattle.read_toml.specs.NotesDocument.{AreSaid, table_of, tables_at, tables_of};
ghost use Rattle.toml.specs.View.{view, table_view, items_view};

use super::element::Element;
use super::fields::{Fields, items};
use std::alloc::{AllocError, Global};
use toml::Value;

impl Fields<'_> {
    /// What the tables of the array at a key say.
    pub fn elements<T: Element + Drop>(&self, key: &str) -> Result<Vec<T>, AllocError>
        requires { Each (T.holds (table_view self.now.whole.now)) 0
            (tables_at key.now (table_view self.now.table.now)) }
        ensures { IfOk result (λ elements. AreSaid (T.says (table_view self.now.whole.now)) 0
            (tables_at key.now (table_view self.now.table.now)) elements.items) }
    {
        read_elements(self, items(self.table, key))
    }
}

/// Whether there may be `count` elements: `low` or more, and `high` at most, if there is a limit.
pub fn is_count(count: usize, low: usize, high: Option<usize>) -> bool
    ensures { result ≡ document.is_count low high count }
{
    match high {
        Some(high) => low <= count && count <= high,
        None => low <= count,
    }
}

/// What the tables among some elements say.
fn read_elements<T: Element + Drop>(
    fields: &Fields<'_>,
    items: &[Value],
) -> Result<Vec<T>, AllocError>
    requires { Each (T.holds (table_view fields.now.whole.now)) 0
        (tables_of (items_view items.now)) }
    ensures { IfOk result (λ elements. AreSaid (T.says (table_view fields.now.whole.now)) 0
        (tables_of (items_view items.now)) elements.items) }
{
    let mut elements = Vec::new(fields.alloc);
    for value in items {
        read_element(fields, value, &mut elements)?;
    }
    Ok(elements)
}

/// Adds what an element says, if it is a table.
fn read_element<T: Element + Drop>(
    fields: &Fields<'_>,
    value: &Value,
    elements: &mut Vec<T>,
) -> Result<(), AllocError>
    requires { Each (T.holds (table_view fields.now.whole.now)) (length elements.old.items)
        (table_of (view value.now)) }
    ensures { IfOk result (λ _. (more : List T) × (elements.new.items ≡ elements.old.items ++ more)
        × AreSaid (T.says (table_view fields.now.whole.now)) (length elements.old.items)
        (table_of (view value.now)) more) }
{
    let Some(table) = value.as_table() else {
        return Ok(());
    };
    let fields = Fields {
        alloc: fields.alloc,
        at: "",
        table,
        whole: fields.whole,
    };
    let element = T::read(&fields, elements.len())?;
    elements.push(element)?;
    Ok(())
}

/// The path of the element with this index, from 0.
pub fn element_path(alloc: Global, path: &str, place: usize) -> Result<String, AllocError>
    requires { place + 1 < 2 ^ 64 }
    ensures { IfOk result (λ at. string_bytes at ≡ path.now ++ codes "." ++ decimal (place + 1)) }
{
    let mut at = String::from_str(alloc, path)?;
    at.push_str(".")?;
    write!(at, "{}", place as u64 + 1)?;
    Ok(at)
}
