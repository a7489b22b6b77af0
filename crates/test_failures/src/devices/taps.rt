//! Readers that give few bytes a call, fail or never end.

use std::io;
use std::io::{ErrorKind, Read};

/// A reader of some bytes and of stars behind them. It gives `most` bytes a call at most, and fails
/// once it has served `calls` calls.
#[derive(Clone, Copy)]
pub(crate) struct Tap<'a> {
    pub(crate) bytes: &'a [u8],
    /// How many stars follow. No test reads `usize::MAX` of them.
    pub(crate) stars: usize,
    /// The most bytes of a call.
    pub(crate) most: usize,
    /// How many calls it serves. No test makes `u64::MAX` of them.
    pub(crate) calls: u64,
    /// What it says where it fails.
    pub(crate) kind: ErrorKind,
}

impl<'a> Tap<'a> {
    /// A reader of these bytes that gives as many a call as it is asked for, and doesn't fail.
    pub(crate) fn of(bytes: &'a [u8]) -> Tap<'a> {
        Tap {
            bytes,
            stars: 0,
            most: usize::MAX,
            calls: u64::MAX,
            kind: ErrorKind::Interrupted,
        }
    }

    /// The same, and `stars` stars behind the bytes.
    pub(crate) fn with_stars(bytes: &'a [u8], stars: usize) -> Tap<'a> {
        Tap {
            stars,
            ..Tap::of(bytes)
        }
    }

    /// A reader of these bytes that gives one a call and fails, as one that was interrupted, once
    /// it has served `calls` calls.
    pub(crate) fn failing(bytes: &'a [u8], calls: u64) -> Tap<'a> {
        Tap {
            most: 1,
            calls,
            ..Tap::of(bytes)
        }
    }

    /// A reader of stars that never ends, with `most` bytes a call at most.
    pub(crate) fn endless(most: usize) -> Tap<'a> {
        Tap {
            most,
            ..Tap::with_stars(b"", usize::MAX)
        }
    }
}

impl Read for Tap<'_> {
    fn read(&mut self, buf: &mut [u8]) -> io::Result<usize> {
        if self.calls == 0 {
            return Err(io::Error::from(self.kind));
        }
        self.calls -= 1;
        let room = buf.len().min(self.most);
        if !self.bytes.is_empty() {
            return self.bytes.read(&mut buf[..room]);
        }
        let count = room.min(self.stars);
        for byte in &mut buf[..count] {
            *byte = b'*';
        }
        self.stars -= count;
        Ok(count)
    }
}
