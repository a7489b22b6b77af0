ghost use Rattle.std.specs.Prelude.{◌≤◌};

use std::io;
use std::io::{ErrorKind, Write};

/// How many bytes a page holds. Past them a write fails, as those of a picture and of the longest
/// help do.
const LENGTH: usize = 2048;

/// A writer that takes no memory. It takes `most` bytes a call at most, and fails where it has no
/// room.
#[derive(Debug, Drop)]
pub(crate) struct Page {
    bytes: [u8; LENGTH],
    len: usize,
    /// How many bytes more it takes.
    room: usize,
    most: usize,
    ghost within: { len ≤ 2048 },
}

impl Page {
    /// An empty page, which takes all that it holds in one call.
    pub(crate) fn new() -> Page {
        Page::with(LENGTH, usize::MAX)
    }

    /// An empty page with room for `room` bytes, which takes `most` bytes a call at most.
    pub(crate) fn with(room: usize, most: usize) -> Page {
        Page {
            bytes: [0; LENGTH],
            len: 0,
            room,
            most,
        }
    }

    /// What was written.
    pub(crate) fn text(&self) -> &[u8] {
        &self.bytes[..self.len]
    }

    /// Whether just this was written.
    pub(crate) fn is(&self, text: &str) -> bool {
        self.text() == text.as_bytes()
    }
}

impl Write for Page {
    fn write(&mut self, buf: &[u8]) -> io::Result<usize> {
        if self.room == 0 {
            return Err(io::Error::from(ErrorKind::StorageFull));
        }
        let count = buf.len().min(self.most).min(self.room);
        self.room -= count;
        for byte in &buf[..count] {
            if self.len >= LENGTH {
                return Err(io::Error::from(ErrorKind::StorageFull));
            }
            self.bytes[self.len] = *byte;
            self.len += 1;
        }
        Ok(count)
    }

    fn flush(&mut self) -> io::Result<()> {
        Ok(())
    }
}
