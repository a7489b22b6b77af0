//! A timing table, read from a document, or the first fault of the document.

ghost use Rattle.std.specs.Prelude.{◌≡◌, ℕ, [], map, slice_get, Some, IfOk, IfErr};
ghost use Rattle.base_words.specs.declared.op.Op.{Op};
ghost use Rattle.base_words.specs.Op.{ops};
ghost use Rattle.base_notes.specs.Entries.{entry_in};
ghost use Rattle.read_toml.specs.Document.{table_at};
ghost use Rattle.read_toml.specs.Refused.{IsDocument, IsFirst, IsRefused};
ghost use Rattle.read_toml.specs.TimesDocument as document;
ghost use Rattle.toml.specs.Data.{Members};
ghost use Rattle.toml.specs.View.{table_view};

use super::read_entry::read_entry;
use crate::document::faults::Faults;
use crate::document::fields::Fields;
use crate::document::read_document;
use base_notes::{Entry, NoteFault, Times};
use base_words::{Op, Parity};
use std::alloc::Global;
use toml::Table;

/// Reads a timing table: a TOML document with the one key `op`, a table with one table for each of
/// the 42 operations, under its two digits.
///
/// # Errors
///
/// Toml or Memory; else the first of these that there is: at the top unknown keys in byte order,
/// then `op` missing or of another kind; in `op` unknown keys in byte order; then what is wrong
/// with each operation, in ascending order of their numbers.
pub fn read_times(alloc: Global, bytes: &[u8]) -> Result<Times, NoteFault>
    ensures read { IfOk result (λ times. (whole : Members) × IsDocument bytes.now whole
        × document.IsTimes whole (entry_in times)) }
    ensures refused { IfErr result (IsRefused document.times_faults bytes.now) }
{
    let table = read_document(alloc, bytes)?;
    read_table(alloc, &table)
}

/// The timing table that a document is, or its first fault.
fn read_table(alloc: Global, table: &Table) -> Result<Times, NoteFault>
    ensures said { IfOk result (λ times. document.IsTimes (table_view table.now) (entry_in times)) }
    ensures first { IfErr result (IsFirst (document.times_faults (table_view table.now))) }
{
    let mut faults = Faults::new(alloc);
    faults.times(alloc, table)?;
    faults.refuse()?;
    Ok(times_in(alloc, table))
}

/// The timing table that a document without faults is.
fn times_in(alloc: Global, table: &Table) -> Times
    requires { document.times_faults (table_view table.now) ≡ [] }
    ensures { document.IsTimes (table_view table.now) (entry_in result) }
{
    let top = Fields {
        alloc,
        at: "",
        table,
        whole: table,
    };
    let operations = Fields {
        alloc,
        at: "op.",
        table: top.table("op"),
        whole: table,
    };
    read_entries(&operations, &keys(), &Op::all())
}

/// The entries of the operations, in their order; `keys` are their keys.
fn read_entries(operations: &Fields<'_>, keys: &[&str], ops: &[Op]) -> Times
    requires keyed { map (λ key. key.now) keys.now ≡ map document.key_of ops.now }
    requires faultless { (op : Op)
        → document.operation_faults (table_view operations.now.table.now) op ≡ [] }
    ensures { (k : ℕ) (op : Op) → slice_get ops.now k ≡ Some op
        → document.IsEntry (table_at (document.key_of op) (table_view operations.now.table.now))
        (entry_in result op) }
{
    let blank = Entry {
        before: 1,
        after: 0,
        parity: Parity::Any,
        per: 0,
        wait_min: 0,
        wait_max: 0,
    };
    let mut entries = [blank; 100];
    for (at, op) in ops.iter().enumerate() {
        entries[op.number() as usize] = read_operation(operations, keys[at]);
    }
    Times::new(entries)
}

/// The entry of an operation, of which this is the key.
fn read_operation(operations: &Fields<'_>, key: &str) -> Entry
    requires { (op : Op) × (key.now ≡ document.key_of op)
        × (document.operation_faults (table_view operations.now.table.now) op ≡ []) }
    ensures { document.IsEntry (table_at key.now (table_view operations.now.table.now)) result }
{
    let fields = Fields {
        alloc: operations.alloc,
        at: "",
        table: operations.table(key),
        whole: operations.whole,
    };
    read_entry(&fields)
}

/// The keys of the operations, two digits each, in ascending order.
pub fn keys() -> [&'static str; 42]
    ensures { map (λ key. key.now) result ≡ map document.key_of ops }
{
    [
        "00", "01", "10", "11", "14", "15", "16", "17", "18", "19", "20", "21", "22", "23", "24",
        "30", "31", "35", "44", "45", "46", "47", "60", "61", "64", "65", "66", "67", "68", "69",
        "70", "71", "90", "91", "92", "93", "94", "95", "96", "97", "98", "99",
    ]
}
