//! Notes on a program: read from a document, or all faults of one.

pub mod faults;
mod mark_faults;
mod named;
mod opened;
pub mod read;
mod read_call;
mod read_edges;
mod read_list;
mod read_mark;
mod repeated_faults;
mod short_mark;
