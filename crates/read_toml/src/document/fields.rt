ghost use Rattle.std.specs.Prelude.{◌≡◌, ◌++◌, IfOk, map, option_map};
ghost use Rattle.std.specs.Prelude.{string_bytes, codes};
ghost use Rattle.read_toml.specs.Document as document;
ghost use Rattle.toml.specs.Data.{get_member};
ghost use Rattle.toml.specs.View.{items_view, view, table_view};

use base_notes::KeyPath;
use std::alloc::{AllocError, Global};
use toml::{Table, Value};

/// A table of a document, and where it stands.
#[derive(Clone, Copy)]
pub struct Fields<'a> {
    pub alloc: Global,
    /// The path of its keys: empty at the top, else it ends in a dot.
    pub at: &'a str,
    pub table: &'a Table,
    /// The document that it is part of.
    pub whole: &'a Table,
}

impl Fields<'_> {
    /// The path of one of its keys.
    ///
    /// # Errors
    ///
    /// Where there is no memory, or where the path is longer than a path may be, for which no
    /// machine has room.
    pub fn path(&self, key: &str) -> Result<KeyPath, AllocError>
        ensures { IfOk result (λ path. string_bytes path.text ≡ self.now.at.now ++ key.now) }
    {
        let mut path = String::from_str(self.alloc, self.at)?;
        path.push_str(key)?;
        KeyPath::new(path).ok_or(AllocError)
    }

    /// The beginning of the paths of the keys in the table at one of its keys: the path, and a dot.
    pub fn inside(&self, key: &str) -> Result<String, AllocError>
        ensures { IfOk result (λ at. string_bytes at ≡ self.now.at.now ++ key.now ++ codes ".") }
    {
        let mut at = String::from_str(self.alloc, self.at)?;
        at.push_str(key)?;
        at.push_str(".")?;
        Ok(at)
    }

    /// The value at a key, if there is one.
    pub fn get(&self, key: &str) -> Option<&Value>
        ensures { option_map (λ value. view value.now) result
            ≡ get_member key.now (table_view self.now.table.now) }
    {
        member(self.table, key)
    }
}

/// The value at a key of a table, if there is one.
pub fn member<'a>(table: &'a Table, key: &str) -> Option<&'a Value>
    ensures { option_map (λ value. view value.now) result
        ≡ get_member key.now (table_view table.now) }
{
    table.get(key)
}

/// The elements of the array at a key of a table; none where there is none.
pub fn items<'a>(table: &'a Table, key: &str) -> &'a [Value]
    ensures { items_view result.now ≡ document.items_at key.now (table_view table.now) }
{
    let Some(value) = member(table, key) else {
        return &[];
    };
    match value.as_array() {
        Some(items) => items,
        None => &[],
    }
}

/// Whether a key is one of these.
pub fn is_one_of(key: &str, keys: &[&str]) -> bool
    ensures { result ≡ document.is_one_of key.now (map (λ one. one.now) keys.now) }
{
    for one in keys {
        if *one == key {
            return true;
        }
    }
    false
}
