//! What `toml` says of bytes that are no document, and where.
ghost use Rattle.std.specs.Prelude.{◌≡◌, ◌+◌, ◌≤◌, IfOk, count_by, length};
ghost use Rattle.read_toml.specs.Complaint as said;
ghost use Rattle.read_toml.specs.Complaint.{Complains};

use std::alloc::{AllocError, Global};

/// What `toml` says of bytes that are no document, and at which place in them.
#[derive(Drop)]
pub struct Complaint {
    /// The line, from 1.
    pub line: usize,
    /// The column: a character of the line, from 1.
    pub column: usize,
    /// What is wrong there, in the words of `toml`.
    pub message: String,
}

/// What `toml` says of the bytes; `None` where they are a TOML document.
///
/// # Errors
///
/// [`AllocError`] where there is no memory, and for a place past 2^62 bytes, for which no machine
/// has room.
pub fn toml_complaint(alloc: Global, bytes: &[u8]) -> Result<Option<Complaint>, AllocError>
    ensures { IfOk result (Complains bytes.now) }
{
    let error = match toml::table_from_slice(alloc, bytes) {
        Ok(_) => return Ok(None),
        Err(error) => error,
    };
    let Some(span) = error.span() else {
        return Err(AllocError);
    };
    let before = &bytes[..span.start];
    if before.len() > FARTHEST {
        return Err(AllocError);
    }
    let message = String::from_str(alloc, error.message())?;
    Ok(Some(Complaint {
        line: line_behind(before),
        column: column_behind(before),
        message,
    }))
}

/// How many bytes may stand before a place.
const FARTHEST: usize = 1 << 62;

/// The line of the place behind these bytes, from 1.
fn line_behind(before: &[u8]) -> usize
    requires { length before.now ≤ FARTHEST }
    ensures { result ≡ 1 + count_by said.is_feed before.now }
{
    1 + before.iter().filter(|byte| **byte == b'\n').count()
}

/// The column of the place behind these bytes, from 1.
fn column_behind(before: &[u8]) -> usize
    requires { length before.now ≤ FARTHEST }
    ensures { result ≡ said.column_behind 1 before.now }
{
    let mut column = 1;
    for byte in before {
        match *byte {
            b'\n' => column = 1,
            128..=191 => {}
            _ => column += 1,
        }
    }
    column
}
