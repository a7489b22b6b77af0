//! All faults of an array of tables, one element whole before the next.
ghost use Rattle.std.specs.Prelude.{◌+◌, ◌^◌, ◌<◌, ◌++◌, codes, decimal, IfOk};
ghost use Rattle.read_toml.specs.AllFaults.{Adds};
ghost use Rattle.read_toml.specs.Document as document;
ghost use Rattle.toml.specs.View.{view, table_view, items_view};

use super::element::Checked;
use super::faults::Faults;
use super::fields::Fields;
use super::tables::{element_path, is_count};
use super::value::ValueFault;
use base_notes::{KeyPath, NoteFault};
use std::alloc::AllocError;
use toml::Value;

impl Faults {
    /// Adds what is wrong with a key's value, which is to be an array of tables, from `low` to
    /// `high` of them, and with its elements.
    pub fn tables<T: Checked>(
        &mut self,
        fields: &Fields<'_>,
        key: &str,
        low: usize,
        high: Option<usize>,
    ) -> Result<(), AllocError>
        ensures { IfOk result (λ _. Adds self.old.all.items self.new.all.items
            (document.tables low high (T.faults (table_view fields.now.whole.now))
            fields.now.at.now key.now (table_view fields.now.table.now))) }
    {
        let Some(value) = fields.get(key) else {
            return Ok(());
        };
        let Some(items) = value.as_array() else {
            self.wrong(fields, key, ValueFault::Kind)?;
            return Ok(());
        };
        if !is_count(items.len(), low, high) {
            self.wrong(fields, key, ValueFault::Range)?;
            return Ok(());
        }
        let path = fields.path(key)?;
        self.elements::<T>(fields, path.text.as_str(), items)?;
        Ok(())
    }

    /// Adds the faults of the elements of an array at a path.
    fn elements<T: Checked>(
        &mut self,
        fields: &Fields<'_>,
        path: &str,
        items: &[Value],
    ) -> Result<(), AllocError>
        ensures { IfOk result (λ _. Adds self.old.all.items self.new.all.items
            (document.elements_faults (T.faults (table_view fields.now.whole.now)) path.now 1
            (items_view items.now))) }
    {
        for (place, value) in items.iter().enumerate() {
            self.element::<T>(fields, path, place, value)?;
        }
        Ok(())
    }

    /// Adds those of the element with this index, from 0.
    fn element<T: Checked>(
        &mut self,
        fields: &Fields<'_>,
        path: &str,
        place: usize,
        value: &Value,
    ) -> Result<(), AllocError>
        requires { place + 1 < 2 ^ 64 }
        ensures { IfOk result (λ _. Adds self.old.all.items self.new.all.items
            (document.element_faults (T.faults (table_view fields.now.whole.now)) (place + 1)
            (path.now ++ codes "." ++ decimal (place + 1)) (view value.now))) }
    {
        let mut at = element_path(fields.alloc, path, place)?;
        let Some(table) = value.as_table() else {
            let path = KeyPath::new(at).ok_or(AllocError)?;
            self.add(NoteFault::Kind(path))?;
            return Ok(());
        };
        at.push_str(".")?;
        let fields = Fields {
            alloc: fields.alloc,
            at: at.as_str(),
            table,
            whole: fields.whole,
        };
        T::check(self, &fields, place)?;
        Ok(())
    }
}
