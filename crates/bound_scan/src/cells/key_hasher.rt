//! The hasher of keys.

ghost use Rattle.std.specs.Prelude.{◌≡◌};

use std::hash::Hasher;

/// Keeps neighbours together: nine keys in a row share a group of the map's table, so that a scan
/// in the order of the keys goes through its memory in order. Nine is as many as the map puts into
/// a group on average: with fewer, the keys of a table that is nearly full would come to its first
/// groups again, and overflow them.
#[derive(Clone, Copy)]
pub struct KeyHasher {
    /// The last number that was written.
    key: u64,
}

impl Default for KeyHasher {
    ghost use Rattle.std.specs.Prelude.{◌≡◌};

    ghost is_default = { λ hasher. hasher ≡ record { key = 0 } };

    fn default() -> KeyHasher {
        KeyHasher { key: 0 }
    }
}

impl Hasher for KeyHasher {
    ghost use Rattle.std.specs.Prelude.{◌+◌, ◌*◌, ◌/◌, ◌%◌, ◌^◌, fold};

    ghost write = { λ hasher bytes. record {
      key = fold (λ key byte. key / 256 + byte * 2 ^ 24) hasher.key bytes;
    } };

    ghost finish = { λ hasher. hasher.key / 9 + (hasher.key % 9 + 1) * 2 ^ 24 };

    fn finish(&self) -> u64 {
        self.key / 9 + (self.key % 9 + 1) * 16_777_216
    }

    fn write(&mut self, bytes: &[u8]) {
        self.key = bytes.iter().fold(
            self.key,
            |key, byte| key / 256 + (*byte as u64) * 16_777_216,
        );
    }

    // A key is written so: its four bytes at once.
    fn write_u32(&mut self, i: u32) {
        self.key = self.key / 4_294_967_296 + u64::from(i);
    }
}
