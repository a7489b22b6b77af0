ghost use Rattle.std.specs.Prelude.{◌≡◌, ◌+◌, ◌*◌, ◌^◌, ◌≤◌};

use crate::failed::Failed;
use crate::input::Input;
use std::io::Read;

/// An input over any reader of `std`. It tells which bytes are left where the reader does.
#[derive(Debug, Drop)]
pub struct Reading<R: Read> {
    /// The reader.
    pub reader: R,
    calls: u64,
    failures: u64,
    ends: u64,
    idle: u64,
    bytes: u128,
    ghost within: { failures + ends ≤ calls },
    ghost some_idle: { idle ≤ calls },
    ghost counted: { bytes ≤ calls * 2 ^ 64 },
}

impl<R: Read> Reading<R> {
    /// The input of a reader, with all counts 0.
    pub fn new(reader: R) -> Reading<R>
        ensures reader { result.reader ≡ reader }
        ensures calls { ⟦<Reading<R> as Input>⟧.called result ≡ 0 }
        ensures failures { ⟦<Reading<R> as Input>⟧.failed result ≡ 0 }
        ensures given { ⟦<Reading<R> as Input>⟧.given result ≡ 0 }
        ensures ended { ⟦<Reading<R> as Input>⟧.ended result ≡ 0 }
        ensures idle { ⟦<Reading<R> as Input>⟧.idle result ≡ 0 }
    {
        Reading {
            reader,
            calls: 0,
            failures: 0,
            ends: 0,
            idle: 0,
            bytes: 0,
        }
    }
}

impl<R: Read> Input for Reading<R> {
    ghost unread = { λ reading. R.remaining reading.reader };

    ghost called = { λ reading. reading.calls };

    ghost failed = { λ reading. reading.failures };

    ghost given = { λ reading. reading.bytes };

    ghost ended = { λ reading. reading.ends };

    ghost idle = { λ reading. reading.idle };

    fn read(&mut self, buf: &mut [u8]) -> Result<usize, Failed> {
        self.calls += 1;
        match self.reader.read(buf) {
            Ok(count) => {
                if count == 0 {
                    self.idle += 1;
                    if !buf.is_empty() {
                        self.ends += 1;
                    }
                }
                self.bytes += count as u128;
                Ok(count)
            }
            Err(_) => {
                self.failures += 1;
                self.idle += 1;
                Err(Failed)
            }
        }
    }

    fn calls(&self) -> u64 {
        self.calls
    }

    fn failures(&self) -> u64 {
        self.failures
    }

    fn ends(&self) -> u64 {
        self.ends
    }

    fn idle(&self) -> u64 {
        self.idle
    }

    fn bytes(&self) -> u128 {
        self.bytes
    }
}
