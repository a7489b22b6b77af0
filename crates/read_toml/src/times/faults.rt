//! All faults of a timing table.
ghost use Rattle.std.specs.Prelude.{◌≡◌, map, flat_map, codes, IfOk};
ghost use Rattle.base_words.specs.Op.{ops};
ghost use Rattle.read_toml.specs.AllFaults.{Adds, AreAllFaults};
ghost use Rattle.read_toml.specs.TimesDocument as document;
ghost use Rattle.toml.specs.Data.{table as toml_table};
ghost use Rattle.toml.specs.View.{table_view};

use super::read::keys;
use super::read_entry::{Form, PARITIES, form_of, keys_of};
use crate::document::faults::{Faults, no_document};
use crate::document::fields::Fields;
use crate::document::read_document;
use crate::document::value::ValueFault;
use base_notes::{Entry, NoteFault};
use base_words::Op;
use std::alloc::{AllocError, Global};
use toml::Table;

/// All faults of bytes that are to be a timing table, in the order in which [`crate::read_times`]
/// looks for the first; of bytes that are no document, that alone. There is none exactly where the
/// bytes are a timing table.
///
/// # Errors
///
/// [`AllocError`] where there is no memory.
pub fn times_faults(alloc: Global, bytes: &[u8]) -> Result<Vec<NoteFault>, AllocError>
    ensures { IfOk result (λ faults.
        AreAllFaults document.times_faults bytes.now faults.items) }
{
    let table = match read_document(alloc, bytes) {
        Ok(table) => table,
        Err(NoteFault::Toml) => return no_document(alloc),
        Err(_) => return Err(AllocError),
    };
    let mut faults = Faults::new(alloc);
    faults.times(alloc, &table)?;
    Ok(faults.all)
}

impl Faults {
    /// Adds those of a document that is to be a timing table.
    pub fn times(&mut self, alloc: Global, table: &Table) -> Result<(), AllocError>
        ensures { IfOk result (λ _. Adds self.old.all.items self.new.all.items
            (document.times_faults (table_view table.now))) }
    {
        let top = Fields {
            alloc,
            at: "",
            table,
            whole: table,
        };
        self.unknown(&top, &["op"])?;
        let Some(value) = top.get("op") else {
            self.lacks(&top, "op")?;
            return Ok(());
        };
        let Some(table) = value.as_table() else {
            self.wrong(&top, "op", ValueFault::Kind)?;
            return Ok(());
        };
        self.operations(alloc, table)?;
        Ok(())
    }

    /// Adds those of the table of operations.
    fn operations(&mut self, alloc: Global, table: &Table) -> Result<(), AllocError>
        ensures { IfOk result (λ _. Adds self.old.all.items self.new.all.items
            (document.operations_faults (toml_table (table_view table.now)))) }
    {
        let operations = Fields {
            alloc,
            at: "op.",
            table,
            whole: table,
        };
        let keys = keys();
        self.unknown(&operations, &keys)?;
        self.each_operation(&operations, &keys, &Op::all())?;
        Ok(())
    }

    /// Adds those of the operations, in their order; `keys` are their keys.
    fn each_operation(
        &mut self,
        operations: &Fields<'_>,
        keys: &[&str],
        ops: &[Op],
    ) -> Result<(), AllocError>
        requires here { operations.now.at.now ≡ codes "op." }
        requires keyed { map (λ key. key.now) keys.now ≡ map document.key_of ops.now }
        ensures { IfOk result (λ _. Adds self.old.all.items self.new.all.items
            (flat_map (document.operation_faults (table_view operations.now.table.now))
            ops.now)) }
    {
        for (at, op) in ops.iter().enumerate() {
            self.operation(operations, keys[at], *op)?;
        }
        Ok(())
    }

    /// Adds those of what stands for an operation, of which this is the key.
    fn operation(&mut self, operations: &Fields<'_>, key: &str, op: Op) -> Result<(), AllocError>
        requires here { operations.now.at.now ≡ codes "op." }
        requires keyed { key.now ≡ document.key_of op }
        ensures { IfOk result (λ _. Adds self.old.all.items self.new.all.items
            (document.operation_faults (table_view operations.now.table.now) op)) }
    {
        let Some(value) = operations.get(key) else {
            self.lacks(operations, key)?;
            return Ok(());
        };
        let Some(table) = value.as_table() else {
            self.wrong(operations, key, ValueFault::Kind)?;
            return Ok(());
        };
        let at = operations.inside(key)?;
        let fields = Fields {
            alloc: operations.alloc,
            at: at.as_str(),
            table,
            whole: operations.whole,
        };
        self.entry(&fields, op)?;
        Ok(())
    }

    /// Adds those of an operation's entry.
    fn entry(&mut self, fields: &Fields<'_>, op: Op) -> Result<(), AllocError>
        ensures { IfOk result (λ _. Adds self.old.all.items self.new.all.items
            (document.entry_faults op fields.now.at.now (table_view fields.now.table.now))) }
    {
        let form = form_of(op);
        let keys = keys_of(form);
        self.unknown(fields, keys)?;
        self.missing(fields, keys)?;
        self.plain(fields)?;
        self.rest(fields, form)?;
        Ok(())
    }

    /// Adds those of the values that each entry has.
    fn plain(&mut self, fields: &Fields<'_>) -> Result<(), AllocError>
        ensures { IfOk result (λ _. Adds self.old.all.items self.new.all.items
            (document.plain_faults fields.now.at.now (table_view fields.now.table.now))) }
    {
        self.whole_number(fields, "before", 1, Entry::LONGEST)?;
        self.whole_number(fields, "after", 0, Entry::LONGEST)?;
        self.choice(fields, "parity", &PARITIES)?;
        Ok(())
    }

    /// Adds those of the values that an entry of this form has beside them.
    fn rest(&mut self, fields: &Fields<'_>, form: Form) -> Result<(), AllocError>
        ensures { IfOk result (λ _. Adds self.old.all.items self.new.all.items
            (document.rest_faults form fields.now.at.now (table_view fields.now.table.now))) }
    {
        match form {
            Form::Plain => {}
            Form::Units => self.whole_number(fields, "per", 0, Entry::LONGEST)?,
            Form::Waits => self.waits(fields)?,
        }
        Ok(())
    }

    /// Adds those of the waits of an entry: the longest is no shorter than the shortest.
    fn waits(&mut self, fields: &Fields<'_>) -> Result<(), AllocError>
        ensures { IfOk result (λ _. Adds self.old.all.items self.new.all.items
            (document.rest_faults Form.Waits fields.now.at.now
            (table_view fields.now.table.now))) }
    {
        self.whole_number(fields, "wait_min", 0, Entry::LONGEST)?;
        let least = fields.number("wait_min");
        self.whole_number(fields, "wait_max", least, Entry::LONGEST)?;
        Ok(())
    }
}
