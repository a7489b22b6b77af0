//! What the readers of both documents share: the document that bytes are, and a TOML table whose
//! keys are looked for one after the other.
ghost use Rattle.std.specs.Prelude.{IfOk, IfErr};
ghost use Rattle.read_toml.specs.Refused.{IsDocument, IsUnread};
ghost use Rattle.toml.specs.View.{table_view};

pub mod element;
pub mod faults;
pub mod fields;
pub mod table_faults;
pub mod tables;
pub mod value;
pub mod values;

use base_notes::NoteFault;
use std::alloc::Global;
use toml::Table;

/// Reads a TOML document from bytes.
///
/// # Errors
///
/// Toml where they are no TOML document, or no UTF-8; Memory where there is no memory.
pub fn read_document(alloc: Global, bytes: &[u8]) -> Result<Table, NoteFault>
    ensures read { IfOk result (λ table. IsDocument bytes.now (table_view table)) }
    ensures refused { IfErr result (IsUnread bytes.now) }
{
    match toml::table_from_slice(alloc, bytes) {
        Ok(table) => Ok(table),
        Err(error) if error.is_memory() => Err(NoteFault::Memory),
        Err(_) => Err(NoteFault::Toml),
    }
}
