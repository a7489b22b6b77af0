//! A timing table: read from a document, or all faults of one.

pub mod faults;
pub mod read;
mod read_entry;
